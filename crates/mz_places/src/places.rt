//! The types of places: those of a private functor or predicate, or of a letter.
ghost use Rattle.std.specs.Prelude.{◌≡◌, ◌∷◌, [], map, OnOk};
ghost use Rattle.mz_cited.specs.Cited.{members, tree_of};
ghost use Rattle.mz_resolve.specs.Answers.{OnRead};
ghost use Rattle.mz_parts.specs.Propositions.{all_read};
ghost use Rattle.mz_places.specs.Places.{TypesReadBehind, PlacesRead};

use mz_context::context::Context;
use mz_core::outcome::Left;
use mz_core::soft_types::SoftTypes;
use mz_environment::environment::Environment;
use mz_resolve::calls::type_of;
use mz_resolve::resolve_fault::ResolveFault;
use mz_tree::chain::Next;
use mz_tree::expressions::TypeTree;
use mz_tree::lists::Separated;
use mz_tree::word::Comma;
use std::alloc::Global;

/// Reads one of the types, and puts it behind the others.
#[tactic(auto, using(crate::proofs::PlaceLemmas::one_rules))]
fn read_one(
    alloc: Global,
    env: &Environment,
    ctx: &mut Context,
    least: u32,
    tree: &TypeTree,
    out: &mut SoftTypes,
    left: &mut Left,
) -> Result<(), ResolveFault>
    ensures reads { OnRead result (λ o. TypesReadBehind env.now ctx.old least left.old (tree.now ∷ []) out.old (all_read o out.new) left.new) }
    ensures same { ctx.new ≡ ctx.old }
{
    match type_of(alloc, env, ctx, least, tree, left) {
        Ok(ty) => {
            out.push(ty)?;
            Ok(())
        }
        Err(f) => Err(f),
    }
}

/// Reads types one after another, and puts them behind the others.
#[tactic(auto, using(crate::proofs::PlaceLemmas::each_rules))]
fn read_each(
    alloc: Global,
    env: &Environment,
    ctx: &mut Context,
    least: u32,
    trees: &[Next<Comma, TypeTree>],
    out: &mut SoftTypes,
    left: &mut Left,
) -> Result<(), ResolveFault>
    ensures reads { OnRead result (λ o. TypesReadBehind env.now ctx.old least left.old (map tree_of trees.now) out.old (all_read o out.new) left.new) }
    ensures same { ctx.new ≡ ctx.old }
{
    let mut rest = trees;
    while let Some((next, others)) = rest.split_first() {
        match read_one(alloc, env, ctx, least, &next.tree, out, left) {
            Ok(()) => rest = others,
            Err(f) => return Err(f),
        }
    }
    Ok(())
}

/// Reads all types of a list.
#[tactic(auto, using(crate::proofs::PlaceLemmas::all_rules))]
fn read_all(
    alloc: Global,
    env: &Environment,
    ctx: &mut Context,
    least: u32,
    trees: &Separated<TypeTree>,
    out: &mut SoftTypes,
    left: &mut Left,
) -> Result<(), ResolveFault>
    ensures reads { OnRead result (λ o. TypesReadBehind env.now ctx.old least left.old (members trees.now) out.old (all_read o out.new) left.new) }
    ensures same { ctx.new ≡ ctx.old }
{
    match read_one(alloc, env, ctx, least, &trees.first, out, left) {
        Ok(()) => read_each(
            alloc,
            env,
            ctx,
            least,
            trees.more.items.as_slice(),
            out,
            left,
        ),
        Err(f) => Err(f),
    }
}

/// The types that are written between parentheses or brackets, where there are any, read one after another. The context is as before.
///
/// Refusals: those of the types.
#[tactic(auto, using(crate::proofs::PlaceLemmas::place_rules))]
pub fn read_places(
    alloc: Global,
    env: &Environment,
    ctx: &mut Context,
    least: u32,
    trees: &Option<Separated<TypeTree>>,
    left: &mut Left,
) -> Result<SoftTypes, ResolveFault>
    ensures reads { OnRead result (λ o. PlacesRead env.now ctx.old least left.old trees.now o left.new) }
    ensures same { ctx.new ≡ ctx.old }
{
    let mut out = SoftTypes::new(alloc);
    match trees {
        None => Ok(out),
        Some(trees) => match read_all(alloc, env, ctx, least, trees, &mut out, left) {
            Ok(()) => Ok(out),
            Err(f) => Err(f),
        },
    }
}
