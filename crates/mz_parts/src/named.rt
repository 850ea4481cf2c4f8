//! Names for terms, as `set` and `take` give them.
ghost use Rattle.std.specs.Prelude.{◌≡◌, ◌∷◌, List, IfOk};
ghost use Rattle.mz_core.specs.declared.radix.Radix.{Radix};
ghost use Rattle.mz_resolve.specs.Answers.{OnRead};
ghost use Rattle.mz_parts.specs.Named.{definition, of_radix, Defines, NamedRead};

use mz_context::context::Context;
use mz_core::adjectives::Adjectives;
use mz_core::outcome::Left;
use mz_core::radix::Radix;
use mz_core::soft_type::SoftType;
use mz_environment::environment::Environment;
use mz_logic::term::Term;
use mz_resolve::calls::term;
use mz_resolve::resolve_fault::ResolveFault;
use mz_steps::read_step::Definition;
use mz_tree::word::Word;
use mz_tree_proof::introduction::NamedTermTree;
use mz_types::types::chain;
use std::alloc::{AllocError, Global};

fn of_radix(alloc: Global, r: &Radix) -> Result<SoftType, AllocError>
    ensures { IfOk result (λ ty. ty ≡ of_radix r.now) }
{
    let radix = r.copy(alloc)?;
    Ok(SoftType {
        adjectives: Adjectives::new(alloc),
        radix,
    })
}

/// A name for a term, of the type.
pub fn definition(
    alloc: Global,
    name: &Word,
    ty: &SoftType,
    t: &Term,
) -> Result<Definition, AllocError>
    ensures { IfOk result (λ d. d ≡ definition name.now ty.now t.now) }
{
    let name = name.spelling.copy(alloc)?;
    let ty = ty.copy(alloc)?;
    let term = t.copy(alloc)?;
    Ok(Definition { name, ty, term })
}

/// The type of the first of the radices.
fn first_type(alloc: Global, rs: &[Radix]) -> Result<SoftType, AllocError>
    ensures { IfOk result (λ ty. (r : Radix) × (others : List Radix) × (rs.now ≡ r ∷ others) × (ty ≡ of_radix r)) }
{
    match rs.split_first() {
        Some((r, _)) => of_radix(alloc, r),
        None => Err(AllocError),
    }
}

/// A name for the term, whose type is the first radix of the term's chain, without adjectives.
#[tactic(auto, using(crate::proofs::NameLemmas::define_rules))]
pub fn define(
    alloc: Global,
    env: &Environment,
    ctx: &Context,
    name: &Word,
    t: &Term,
) -> Result<Definition, AllocError>
    ensures { IfOk result (λ d. Defines env.now ctx.now name.now t.now d) }
{
    let rs = chain(alloc, env, ctx, t)?;
    let ty = first_type(alloc, rs.items.as_slice())?;
    let d = definition(alloc, name, &ty, t)?;
    Ok(d)
}

/// A name for the term behind `=`.
///
/// Refusals: those of the term.
#[tactic(auto, using(crate::proofs::NameLemmas::named_rules))]
pub fn read_named(
    alloc: Global,
    env: &Environment,
    ctx: &Context,
    least: u32,
    tree: &NamedTermTree,
    left: &mut Left,
) -> Result<Definition, ResolveFault>
    ensures { OnRead result (λ o. NamedRead env.now ctx.now least left.old tree.now o left.new) }
{
    match term(alloc, env, ctx, least, &tree.term, left) {
        Ok(t) => {
            let d = define(alloc, env, ctx, &tree.name, &t)?;
            Ok(d)
        }
        Err(f) => Err(f),
    }
}
