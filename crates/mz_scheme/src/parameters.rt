//! The parameters of a scheme, read and declared.
ghost use Rattle.std.specs.Prelude.{◌≡◌, map};
ghost use Rattle.mz_cited.specs.Cited.{members, tree_of};
ghost use Rattle.mz_justified.specs.declared.proof_fault.ProofRefusal.TheVariants.{Resolve};
ghost use Rattle.mz_names.specs.declared.refusal.Refusal.TheVariants.{TooLarge};
ghost use Rattle.mz_taken.specs.Answers.{OnTaken, Leads};
ghost use Rattle.mz_taken.specs.OneByOne.{OneByOne};
ghost use Rattle.mz_taken.specs.declared.item_fault.ItemFault.TheVariants.{Refused};
ghost use Rattle.mz_taken.specs.declared.item_fault.ItemRefusal.TheVariants.{Proof};
ghost use Rattle.mz_scheme_items.specs.Parameters.{parameter_place, scope, functors_declared, TakesFunctors, TakesPredicates, TakesParameter, TakesParameters};

use mz_context::context::Context;
use mz_core::outcome::Left;
use mz_core::soft_type::SoftType;
use mz_core::soft_types::SoftTypes;
use mz_environment::environment::Environment;
use mz_justified::proof_fault::ProofRefusal;
use mz_letters::declared::{declare_functors, declare_predicates};
use mz_letters::kept::letter_keeps;
use mz_names::refusal::Refusal;
use mz_places::places::read_places;
use mz_resolve::calls::type_of;
use mz_taken::item_fault::{ItemFault, ItemRefusal, of_reading};
use mz_tree::chain::Next;
use mz_tree::expressions::TypeTree;
use mz_tree::lists::Separated;
use mz_tree::word::Comma;
use mz_tree_heading::patterns::IdentifierTree;
use mz_tree_part::parameter::ParameterTree;
use std::alloc::Global;

fn too_large(words: &Separated<IdentifierTree>) -> ItemFault
    ensures { result ≡ Refused (Proof (Resolve (TooLarge (parameter_place words.now)))) }
{
    let place = words.first.name.place;
    ItemFault::Refused(ItemRefusal::Proof(ProofRefusal::Resolve(Refusal::TooLarge(place))))
}

/// Declares functor letters whose types were read, where these are within the limits.
fn put_functors(
    alloc: Global,
    ctx: &mut Context,
    words: &Separated<IdentifierTree>,
    places: &SoftTypes,
    ty: &SoftType,
) -> Result<(), ItemFault>
    ensures { OnTaken result (Leads (λ o. functors_declared ctx.old words.now places.now ty.now ≡ o) ctx.new) }
{
    if !letter_keeps(alloc, ctx, places, ty)? {
        return Err(too_large(words));
    }
    declare_functors(alloc, ctx, places, ty, words)?;
    Ok(())
}

/// Reads the types of functor letters, and declares these.
fn take_functors(
    alloc: Global,
    env: &Environment,
    ctx: &mut Context,
    least: u32,
    words: &Separated<IdentifierTree>,
    types: &Option<Separated<TypeTree>>,
    tree: &TypeTree,
    left: &mut Left,
) -> Result<(), ItemFault>
    ensures { OnTaken result (Leads (TakesFunctors env.now least (scope ctx.old left.old) words.now types.now tree.now) (scope ctx.new left.new)) }
{
    match read_places(alloc, env, ctx, least, types, left) {
        Err(f) => Err(of_reading(f)),
        Ok(places) => match type_of(alloc, env, ctx, least, tree, left) {
            Err(f) => Err(of_reading(f)),
            Ok(ty) => put_functors(alloc, ctx, words, &places, &ty),
        },
    }
}

/// Reads the types of predicate letters' places, and declares these.
fn take_predicates(
    alloc: Global,
    env: &Environment,
    ctx: &mut Context,
    least: u32,
    words: &Separated<IdentifierTree>,
    types: &Option<Separated<TypeTree>>,
    left: &mut Left,
) -> Result<(), ItemFault>
    ensures { OnTaken result (Leads (TakesPredicates env.now least (scope ctx.old left.old) words.now types.now) (scope ctx.new left.new)) }
{
    match read_places(alloc, env, ctx, least, types, left) {
        Err(f) => Err(of_reading(f)),
        Ok(places) => {
            declare_predicates(alloc, ctx, &places, words)?;
            Ok(())
        }
    }
}

/// Takes a parameter.
fn take_parameter(
    alloc: Global,
    env: &Environment,
    ctx: &mut Context,
    least: u32,
    tree: &ParameterTree,
    left: &mut Left,
) -> Result<(), ItemFault>
    ensures { OnTaken result (Leads (TakesParameter env.now least (scope ctx.old left.old) tree.now) (scope ctx.new left.new)) }
{
    match tree {
        ParameterTree::Functor {
            identifiers,
            types,
            ty,
            ..
        } => take_functors(alloc, env, ctx, least, identifiers, types, ty, left),
        ParameterTree::Predicate {
            identifiers,
            types,
            ..
        } => take_predicates(alloc, env, ctx, least, identifiers, types, left),
    }
}

fn take_more(
    alloc: Global,
    env: &Environment,
    ctx: &mut Context,
    least: u32,
    trees: &[Next<Comma, ParameterTree>],
    left: &mut Left,
) -> Result<(), ItemFault>
    ensures { OnTaken result (Leads (OneByOne (TakesParameter env.now least) (scope ctx.old left.old) (map tree_of trees.now)) (scope ctx.new left.new)) }
{
    let mut rest = trees;
    while let Some((next, others)) = rest.split_first() {
        match take_parameter(alloc, env, ctx, least, &next.tree, left) {
            Ok(()) => rest = others,
            Err(f) => return Err(f),
        }
    }
    Ok(())
}

/// Takes the parameters of a scheme, one after another: each declares a letter for each of its identifiers. No constant below `least` may be
/// used in their types.
///
/// # Errors
/// The first refusal of a type; `TooLarge` at a parameter's first identifier where its type makes too large a statement; or there was no memory.
pub fn take_parameters(
    alloc: Global,
    env: &Environment,
    ctx: &mut Context,
    least: u32,
    trees: &Separated<ParameterTree>,
    left: &mut Left,
) -> Result<(), ItemFault>
    ensures { OnTaken result (Leads (TakesParameters env.now least (scope ctx.old left.old) (members trees.now)) (scope ctx.new left.new)) }
{
    match take_parameter(alloc, env, ctx, least, &trees.first, left) {
        Ok(()) => take_more(alloc, env, ctx, least, trees.more.items.as_slice(), left),
        Err(f) => Err(f),
    }
}
