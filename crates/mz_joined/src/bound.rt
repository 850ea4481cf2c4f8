//! Quantifiers over declared variables, within the limits on nodes and depth.
ghost use Rattle.std.specs.Prelude.{◌≡◌, IfOk};
ghost use Rattle.mz_core.specs.Statement.{For};
ghost use Rattle.mz_core.specs.Abstraction.{statement_over};
ghost use Rattle.mz_sizes.specs.Sizes.{statement_keeps};
ghost use Rattle.mz_applied.specs.Within.{within};
ghost use Rattle.mz_joined.specs.Bound.{quantified, for_all_within, there_are_within};

use crate::joined::denied;
use mz_applied::within::within_statement;
use mz_base::place::Place;
use mz_core::abstraction::statement_over;
use mz_core::statement::Statement;
use mz_core::statement_forms::opposite;
use mz_names::refusal::Refusal;
use mz_names::variable::Variable;
use std::alloc::{AllocError, Global};

/// For each object of the variable's type the statement, where the variable is the constant n.
fn for_each(
    alloc: Global,
    first: Place,
    n: u32,
    v: &Variable,
    s: Statement,
) -> Result<Result<Statement, Refusal>, AllocError>
    ensures { IfOk result (λ o. o ≡ within statement_keeps first (For v.now.ty (statement_over n 0 s))) }
{
    let body = statement_over(alloc, &s, n, 0)?;
    let ty = v.ty.copy(alloc)?;
    let all = Statement::each(alloc, ty, body)?;
    let o = within_statement(first, all);
    Ok(o)
}

/// The same for all variables, the last one first; the statement itself where there is none.
#[tactic(auto, using(crate::proofs::BoundLemmas::quantified_rules))]
fn quantified(
    alloc: Global,
    first: Place,
    n: u32,
    vs: &[Variable],
    s: Statement,
) -> Result<Result<Statement, Refusal>, AllocError>
    ensures { IfOk result (λ o. o ≡ quantified first n vs.now s) }
{
    let count = vs.len();
    if count > 4294967295 {
        return Err(AllocError);
    }
    let mut number = n.checked_add(count as u32).ok_or(AllocError)?;
    let mut out = s;
    let mut rest = vs;
    while let Some((v, before)) = rest.split_last() {
        number -= 1;
        match for_each(alloc, first, number, v, out)? {
            Err(r) => return Ok(Err(r)),
            Ok(s) => out = s,
        }
        rest = before;
    }
    Ok(Ok(out))
}

/// For all objects of the variables' types the statement, where the variables are the constants from n on. `TooLarge` at the
/// first token. More than 4,294,967,295 constants are as no memory.
#[tactic(auto, using(crate::proofs::BoundLemmas::all_rules))]
pub fn for_all_within(
    alloc: Global,
    first: Place,
    n: u32,
    vs: &[Variable],
    s: Statement,
) -> Result<Result<Statement, Refusal>, AllocError>
    ensures { IfOk result (λ o. o ≡ for_all_within first n vs.now s) }
{
    match quantified(alloc, first, n, vs, s)? {
        Err(r) => Ok(Err(r)),
        Ok(s) => {
            let o = within_statement(first, s);
            Ok(o)
        }
    }
}

/// For some objects of the variables' types the statement, where the variables are the constants from n on: not for all of
/// them its negation. `TooLarge` at the first token.
#[tactic(auto, using(crate::proofs::BoundLemmas::some_rules))]
pub fn there_are_within(
    alloc: Global,
    first: Place,
    n: u32,
    vs: &[Variable],
    s: Statement,
) -> Result<Result<Statement, Refusal>, AllocError>
    ensures { IfOk result (λ o. o ≡ there_are_within first n vs.now s) }
{
    let opposed = opposite(alloc, s)?;
    let all = quantified(alloc, first, n, vs, opposed)?;
    let o = denied(alloc, first, all)?;
    Ok(o)
}
