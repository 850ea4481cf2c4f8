//! Connectives within the limits on nodes and depth. What is joined last may have been refused, and then all is.
ghost use Rattle.std.specs.Prelude.{◌≡◌, IfOk};
ghost use Rattle.std.specs.Option.{option_copied};
ghost use Rattle.mz_joined.specs.Joined.{denied, conjoined, disjoined, implied, equated, under, thesis_at};

use mz_applied::within::within_statement;
use mz_base::place::Place;
use mz_core::statement::Statement;
use mz_core::statement_forms::{disjunction, equivalence, implication, opposite};
use mz_names::refusal::Refusal;
use std::alloc::{AllocError, Global};

/// `not s`, without a double negation. `TooLarge` at the first token.
pub fn denied(
    alloc: Global,
    first: Place,
    o: Result<Statement, Refusal>,
) -> Result<Result<Statement, Refusal>, AllocError>
    ensures { IfOk result (λ p. p ≡ denied first o) }
{
    match o {
        Err(r) => Ok(Err(r)),
        Ok(s) => {
            let u = opposite(alloc, s)?;
            let p = within_statement(first, u);
            Ok(p)
        }
    }
}

/// `s & t`. `TooLarge` at the first token.
pub fn conjoined(
    alloc: Global,
    first: Place,
    s: Statement,
    o: Result<Statement, Refusal>,
) -> Result<Result<Statement, Refusal>, AllocError>
    ensures { IfOk result (λ p. p ≡ conjoined first s o) }
{
    match o {
        Err(r) => Ok(Err(r)),
        Ok(t) => {
            let u = Statement::and(alloc, s, t)?;
            let p = within_statement(first, u);
            Ok(p)
        }
    }
}

/// `s or t`. `TooLarge` at the first token.
pub fn disjoined(
    alloc: Global,
    first: Place,
    s: Statement,
    o: Result<Statement, Refusal>,
) -> Result<Result<Statement, Refusal>, AllocError>
    ensures { IfOk result (λ p. p ≡ disjoined first s o) }
{
    match o {
        Err(r) => Ok(Err(r)),
        Ok(t) => {
            let u = disjunction(alloc, s, t)?;
            let p = within_statement(first, u);
            Ok(p)
        }
    }
}

/// `s implies t`. `TooLarge` at the first token.
pub fn implied(
    alloc: Global,
    first: Place,
    s: Statement,
    o: Result<Statement, Refusal>,
) -> Result<Result<Statement, Refusal>, AllocError>
    ensures { IfOk result (λ p. p ≡ implied first s o) }
{
    match o {
        Err(r) => Ok(Err(r)),
        Ok(t) => {
            let u = implication(alloc, s, t)?;
            let p = within_statement(first, u);
            Ok(p)
        }
    }
}

/// `s iff t`. `TooLarge` at the first token.
pub fn equated(
    alloc: Global,
    first: Place,
    s: Statement,
    o: Result<Statement, Refusal>,
) -> Result<Result<Statement, Refusal>, AllocError>
    ensures { IfOk result (λ p. p ≡ equated first s o) }
{
    match o {
        Err(r) => Ok(Err(r)),
        Ok(t) => {
            let u = equivalence(alloc, s, t)?;
            let p = within_statement(first, u);
            Ok(p)
        }
    }
}

/// `s implies t` under a quantifier, `st s holds t`, which is tested with its quantifier.
pub fn under(
    alloc: Global,
    s: Statement,
    o: Result<Statement, Refusal>,
) -> Result<Result<Statement, Refusal>, AllocError>
    ensures { IfOk result (λ p. p ≡ under s o) }
{
    match o {
        Err(r) => Ok(Err(r)),
        Ok(t) => {
            let u = implication(alloc, s, t)?;
            Ok(Ok(u))
        }
    }
}

/// What `thesis` is read to, or `UnknownVariable` at it where it stands for nothing; `TooLarge` at it.
pub fn thesis_at(
    alloc: Global,
    first: Place,
    thesis: &Option<Statement>,
) -> Result<Result<Statement, Refusal>, AllocError>
    ensures { IfOk result (λ p. p ≡ thesis_at first thesis.now) }
{
    match thesis {
        None => Ok(Err(Refusal::UnknownVariable(first))),
        Some(s) => {
            let s = s.copy(alloc)?;
            let p = within_statement(first, s);
            Ok(p)
        }
    }
}
