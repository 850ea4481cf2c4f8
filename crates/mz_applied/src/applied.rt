//! What a symbol applied to arguments is read to.
ghost use Rattle.std.specs.Prelude.{◌≡◌, IfOk};
ghost use Rattle.mz_choice.specs.declared.choice.Wanted.TheVariants.{Anything};
ghost use Rattle.mz_applied.specs.Meant.{as_term, as_type, as_statement, as_attributed, as_adjective};
ghost use Rattle.mz_applied.specs.Reading.{Means, ReadsAs};

use crate::meant::{as_adjective, as_attributed, as_statement, as_term, as_type, meant};
use mz_base::place::Place;
use mz_choice::choice::{Applied, Wanted};
use mz_choice::resolve::resolve;
use mz_context::context::Context;
use mz_core::adjective::Adjective;
use mz_core::notation::Meaning;
use mz_core::soft_type::SoftType;
use mz_core::statement::Statement;
use mz_environment::environment::Environment;
use mz_logic::term::Term;
use mz_names::refusal::Refusal;
use std::alloc::{AllocError, Global};

/// What the applied symbol means, or the refusal at the symbol's place.
#[tactic(auto, using(crate::proofs::ReadingLemmas::means_rules))]
fn meaning(
    alloc: Global,
    env: &Environment,
    ctx: &Context,
    w: &Wanted,
    place: Place,
    a: &Applied,
) -> Result<Result<Meaning, Refusal>, AllocError>
    ensures { IfOk result (λ o. Means env.now ctx.now w.now place a.now o) }
{
    let o = resolve(alloc, env, ctx, w, a)?;
    let m = meant(place, o);
    Ok(m)
}

/// The term that the applied symbol is read to. `place` is the symbol's, `first` that of the expression's first token.
///
/// Refusals: at the symbol, `UnknownSymbol`, `NoNotation` and `UnfitArgument`, the last also where it reads to no term;
/// `TooLarge` at the first token.
#[tactic(auto, using(crate::proofs::ReadingLemmas::reading_rules))]
pub fn applied_term(
    alloc: Global,
    env: &Environment,
    ctx: &Context,
    place: Place,
    first: Place,
    a: &Applied,
) -> Result<Result<Term, Refusal>, AllocError>
    ensures { IfOk result (λ o. ReadsAs env.now ctx.now Anything place (as_term place first) a.now o) }
{
    let w = Wanted::Anything;
    match meaning(alloc, env, ctx, &w, place, a)? {
        Err(r) => Ok(Err(r)),
        Ok(m) => {
            let o = as_term(place, first, m);
            Ok(o)
        }
    }
}

/// The type that the applied mode or structure is read to.
///
/// Refusals, all at the symbol: `UnknownSymbol`, `NoNotation` and `UnfitArgument`, the last also where it reads to no type.
#[tactic(auto, using(crate::proofs::ReadingLemmas::reading_rules))]
pub fn applied_type(
    alloc: Global,
    env: &Environment,
    ctx: &Context,
    place: Place,
    a: &Applied,
) -> Result<Result<SoftType, Refusal>, AllocError>
    ensures { IfOk result (λ o. ReadsAs env.now ctx.now Anything place (as_type place) a.now o) }
{
    let w = Wanted::Anything;
    match meaning(alloc, env, ctx, &w, place, a)? {
        Err(r) => Ok(Err(r)),
        Ok(m) => {
            let o = as_type(place, m);
            Ok(o)
        }
    }
}

/// The statement that the applied predicate is read to.
///
/// Refusals: at the symbol, `UnknownSymbol`, `NoNotation` and `UnfitArgument`, the last also where it reads to no literal;
/// `TooLarge` at the first token.
#[tactic(auto, using(crate::proofs::ReadingLemmas::reading_rules))]
pub fn applied_statement(
    alloc: Global,
    env: &Environment,
    ctx: &Context,
    place: Place,
    first: Place,
    a: &Applied,
) -> Result<Result<Statement, Refusal>, AllocError>
    ensures { IfOk result (λ o. ReadsAs env.now ctx.now Anything place (as_statement place first) a.now o) }
{
    let w = Wanted::Anything;
    match meaning(alloc, env, ctx, &w, place, a)? {
        Err(r) => Ok(Err(r)),
        Ok(m) => {
            let o = as_statement(alloc, place, first, &m)?;
            Ok(o)
        }
    }
}

/// What the applied attribute, behind `non` where that is written, says of its subject, which is its argument on the right.
///
/// Refusals as for a predicate, but `TooLarge` where the adjective alone, without its subject, is beyond the limits; `first` is
/// the place of the adjective's first token.
#[tactic(auto, using(crate::proofs::ReadingLemmas::reading_rules))]
pub fn applied_attribute(
    alloc: Global,
    env: &Environment,
    ctx: &Context,
    non: bool,
    place: Place,
    first: Place,
    a: &Applied,
) -> Result<Result<Statement, Refusal>, AllocError>
    ensures { IfOk result (λ o. ReadsAs env.now ctx.now Anything place (as_attributed non place first) a.now o) }
{
    let w = Wanted::Anything;
    match meaning(alloc, env, ctx, &w, place, a)? {
        Err(r) => Ok(Err(r)),
        Ok(m) => {
            let o = as_attributed(alloc, non, place, first, &m)?;
            Ok(o)
        }
    }
}

/// The adjective that the applied attribute is read to, of the subject that is wanted, which is its argument on the right.
///
/// Refusals: at the symbol, `UnknownSymbol`, `NoNotation`, and `UnfitArgument` where no notation reads to an attribute of
/// the subject; `TooLarge` at the first token.
#[tactic(auto, using(crate::proofs::ReadingLemmas::reading_rules))]
pub fn applied_adjective(
    alloc: Global,
    env: &Environment,
    ctx: &Context,
    w: &Wanted,
    non: bool,
    place: Place,
    first: Place,
    a: &Applied,
) -> Result<Result<Adjective, Refusal>, AllocError>
    ensures { IfOk result (λ o. ReadsAs env.now ctx.now w.now place (as_adjective non place first) a.now o) }
{
    match meaning(alloc, env, ctx, w, place, a)? {
        Err(r) => Ok(Err(r)),
        Ok(m) => {
            let o = as_adjective(non, place, first, m);
            Ok(o)
        }
    }
}
