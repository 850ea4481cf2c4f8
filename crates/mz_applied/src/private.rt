//! Private functors and predicates, and letters, applied to arguments.
ghost use Rattle.std.specs.Prelude.{◌≡◌, ◌↔◌, IfOk, IsTrue, Some, None};
ghost use Rattle.std.specs.Option.{option_copied};
ghost use Rattle.mz_logic.specs.Substitution.{substitute, argument_at};
ghost use Rattle.mz_core.specs.TypeSubstitution.{substitute_statement};
ghost use Rattle.mz_choice.specs.Resolution.{typing};
ghost use Rattle.mz_names.specs.Names.{functor_letter, predicate_letter};
ghost use Rattle.mz_sizes.specs.Sizes.{term_keeps, statement_keeps};
ghost use Rattle.mz_applied.specs.Within.{within};
ghost use Rattle.mz_applied.specs.Private.{PlacesFit, Admits, is_functor_usable, is_predicate_usable, term_of_letter, statement_of_letter, AppliesFunctor, AppliesPredicate};

use crate::within::{within_statement, within_term};
use mz_base::place::Place;
use mz_choice::resolve::typing;
use mz_context::constants::Constants;
use mz_context::context::Context;
use mz_context::letters::NamedLetter;
use mz_context::private::{PrivateFunctor, PrivatePredicate};
use mz_core::soft_type::SoftType;
use mz_core::soft_types::SoftTypes;
use mz_core::statement::Statement;
use mz_core::type_substitution::substitute_statement;
use mz_environment::environment::Environment;
use mz_fits::fits::type_fits;
use mz_ground::clause::Clause;
use mz_instance_sizes::expansions::{is_statement_kept_at, is_term_kept_at};
use mz_logic::beyond::Beyond;
use mz_logic::substitution::substitute;
use mz_logic::term::{Term, Terms};
use mz_names::names::{
    functor_letter, letter_places, letter_sym, predicate_letter, private_functor, private_predicate,
};
use mz_names::refusal::Refusal;
use mz_names::scope::{statement_from, term_from};
use std::alloc::{AllocError, Global};

/// Whether each argument fits the type of its place.
#[tactic(auto, using(crate::proofs::PrivateLemmas::place_rules))]
fn places_fit_by(
    alloc: Global,
    clauses: &[Clause],
    constants: &Constants,
    places: &[SoftType],
    ts: &[Term],
) -> Result<bool, AllocError>
    ensures { IfOk result (λ b. IsTrue b ↔ PlacesFit clauses.now constants.now places.now ts.now) }
{
    match places.split_first() {
        None => {
            let none = ts.len() == 0;
            Ok(none)
        }
        Some((ty, other_places)) => match ts.split_first() {
            None => Ok(false),
            Some((t, others)) => {
                let fits = type_fits(alloc, clauses, constants, t, ty)?;
                if !fits {
                    return Ok(false);
                }
                let rest = places_fit_by(alloc, clauses, constants, other_places, others)?;
                Ok(rest)
            }
        },
    }
}

/// The same in the context of the environment.
fn places_fit(
    alloc: Global,
    env: &Environment,
    ctx: &Context,
    places: &SoftTypes,
    ts: &Terms,
) -> Result<bool, AllocError>
    ensures { IfOk result (λ b. IsTrue b ↔ PlacesFit (typing env.now ctx.now) ctx.now.constants places.now ts.now) }
{
    let tys = places.items.as_slice();
    let us = ts.items.as_slice();
    match typing(alloc, env, ctx)? {
        Some(clauses) => {
            let fit = places_fit_by(alloc, clauses.as_slice(), &ctx.constants, tys, us)?;
            Ok(fit)
        }
        None => {
            let fit = places_fit_by(alloc, env.typing.as_slice(), &ctx.constants, tys, us)?;
            Ok(fit)
        }
    }
}

/// Why what has these places isn't applied to the arguments, if it isn't.
#[tactic(auto, using(crate::proofs::PrivateLemmas::admits_rules))]
fn refusal_of(
    alloc: Global,
    env: &Environment,
    ctx: &Context,
    place: Place,
    usable: bool,
    places: &SoftTypes,
    ts: &Terms,
) -> Result<Option<Refusal>, AllocError>
    ensures { IfOk result (λ o. Admits env.now ctx.now place usable places.now ts.now o) }
{
    if ts.items.len() != places.items.len() {
        return Ok(Some(Refusal::NoNotation(place)));
    }
    let fit = places_fit(alloc, env, ctx, places, ts)?;
    if !fit {
        return Ok(Some(Refusal::UnfitArgument(place)));
    }
    if usable {
        Ok(None)
    } else {
        Ok(Some(Refusal::UnknownVariable(place)))
    }
}

fn is_functor_usable(least: u32, f: &PrivateFunctor) -> bool
    ensures { result ≡ is_functor_usable least f.now }
{
    term_from(&f.body, least)
}

fn is_predicate_usable(least: u32, p: &PrivatePredicate) -> bool
    ensures { result ≡ is_predicate_usable least p.now }
{
    statement_from(&p.body, least)
}

fn term_of_letter(place: Place, ts: Terms, l: Option<&NamedLetter>) -> Result<Term, Refusal>
    ensures { result ≡ term_of_letter place ts (option_copied l.entry) }
{
    match l {
        None => Err(Refusal::UnknownVariable(place)),
        Some(l) => {
            if ts.items.len() == letter_places(&l.letter).items.len() {
                within_term(place, Term::apply(letter_sym(&l.letter), ts))
            } else {
                Err(Refusal::NoNotation(place))
            }
        }
    }
}

fn statement_of_letter(
    place: Place,
    ts: Terms,
    l: Option<&NamedLetter>,
) -> Result<Statement, Refusal>
    ensures { result ≡ statement_of_letter place ts (option_copied l.entry) }
{
    match l {
        None => Err(Refusal::UnknownVariable(place)),
        Some(l) => {
            if ts.items.len() == letter_places(&l.letter).items.len() {
                within_statement(place, Statement::atom(letter_sym(&l.letter), ts))
            } else {
                Err(Refusal::NoNotation(place))
            }
        }
    }
}

/// The term with the arguments for its places, or `TooLarge`. It is measured before it is made.
#[tactic(auto, using(crate::proofs::PrivateLemmas::term_rules))]
fn expanded_term(
    alloc: Global,
    place: Place,
    body: &Term,
    ts: &Terms,
) -> Result<Result<Term, Refusal>, AllocError>
    ensures { IfOk result (λ o. o ≡ within term_keeps place (substitute 0 (argument_at ts.now) body.now)) }
{
    let kept = is_term_kept_at(alloc, body, ts)?;
    if !kept {
        return Ok(Err(Refusal::TooLarge(place)));
    }
    let t = substitute(alloc, body, 0, ts, Beyond::Zero)?;
    Ok(Ok(t))
}

/// The same of a statement.
#[tactic(auto, using(crate::proofs::PrivateLemmas::statement_rules))]
fn expanded_statement(
    alloc: Global,
    place: Place,
    body: &Statement,
    ts: &Terms,
) -> Result<Result<Statement, Refusal>, AllocError>
    ensures { IfOk result (λ o. o ≡ within statement_keeps place (substitute_statement 0 (argument_at ts.now) body.now)) }
{
    let kept = is_statement_kept_at(alloc, body, ts)?;
    if !kept {
        return Ok(Err(Refusal::TooLarge(place)));
    }
    let s = substitute_statement(alloc, body, 0, ts, Beyond::Zero)?;
    Ok(Ok(s))
}

/// What the identifier at the place is read to with arguments in parentheses: the body of the private functor at the
/// arguments, or else the functor letter with them. Constants below `least` may not be used.
///
/// Refusals, all at the identifier and in this order: `UnknownVariable` where it is neither; `NoNotation` with another number
/// of arguments; `UnfitArgument` where an argument doesn't fit its place; `UnknownVariable` where it is a private functor whose
/// body has a constant that may not be used; `TooLarge`.
#[tactic(auto, using(crate::proofs::PrivateLemmas::functor_rules))]
pub fn applied_functor(
    alloc: Global,
    env: &Environment,
    ctx: &Context,
    least: u32,
    place: Place,
    name: &[u8],
    ts: Terms,
) -> Result<Result<Term, Refusal>, AllocError>
    ensures { IfOk result (λ o. AppliesFunctor env.now ctx.now least place name.now ts o) }
{
    match private_functor(ctx, name) {
        None => {
            let o = term_of_letter(place, ts, functor_letter(ctx, name));
            Ok(o)
        }
        Some(f) => {
            let usable = is_functor_usable(least, f);
            match refusal_of(alloc, env, ctx, place, usable, &f.places, &ts)? {
                Some(r) => Ok(Err(r)),
                None => expanded_term(alloc, place, &f.body, &ts),
            }
        }
    }
}

/// What the identifier at the place is read to with arguments in brackets: the body of the private predicate at the
/// arguments, or else the predicate letter with them. Constants below `least` may not be used.
///
/// Refusals as for a functor.
#[tactic(auto, using(crate::proofs::PrivateLemmas::predicate_rules))]
pub fn applied_predicate(
    alloc: Global,
    env: &Environment,
    ctx: &Context,
    least: u32,
    place: Place,
    name: &[u8],
    ts: Terms,
) -> Result<Result<Statement, Refusal>, AllocError>
    ensures { IfOk result (λ o. AppliesPredicate env.now ctx.now least place name.now ts o) }
{
    match private_predicate(ctx, name) {
        None => {
            let o = statement_of_letter(place, ts, predicate_letter(ctx, name));
            Ok(o)
        }
        Some(p) => {
            let usable = is_predicate_usable(least, p);
            match refusal_of(alloc, env, ctx, place, usable, &p.places, &ts)? {
                Some(r) => Ok(Err(r)),
                None => expanded_statement(alloc, place, &p.body, &ts),
            }
        }
    }
}
