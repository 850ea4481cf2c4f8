//! What propositions make together, within the limits on nodes and depth.
ghost use Rattle.std.specs.Prelude.{◌≡◌, map, IfOk};
ghost use Rattle.mz_core.specs.Parts.{conjunction_to};
ghost use Rattle.mz_core.specs.Statement.{And};
ghost use Rattle.mz_core.specs.StatementForms.{disjunction};
ghost use Rattle.mz_sizes.specs.Sizes.{statement_keeps};
ghost use Rattle.mz_steps.specs.Changes.{statement_of};
ghost use Rattle.mz_applied.specs.Within.{within};
ghost use Rattle.mz_parts.specs.Joined.{joined_within, disjoined_within};

use mz_applied::within::within_statement;
use mz_base::place::Place;
use mz_context::labelled::{LabelledStatement, LabelledStatements};
use mz_core::statement::Statement;
use mz_core::statements::Statements;
use mz_joined::joined::{conjoined, disjoined};
use mz_names::refusal::Refusal;
use std::alloc::{AllocError, Global};

/// `s & t`. `TooLarge` at the place.
fn and_one(
    alloc: Global,
    first: Place,
    s: Statement,
    t: &Statement,
) -> Result<Result<Statement, Refusal>, AllocError>
    ensures { IfOk result (λ o. o ≡ within statement_keeps first (And s t.now)) }
{
    let s = Box::new(alloc, s)?;
    let t = t.copy(alloc)?;
    conjoined(alloc, first, Box::into_inner(s), Ok(t))
}

/// `s or t`. `TooLarge` at the place.
fn or_one(
    alloc: Global,
    first: Place,
    s: Statement,
    t: &Statement,
) -> Result<Result<Statement, Refusal>, AllocError>
    ensures { IfOk result (λ o. o ≡ within statement_keeps first (disjunction s t.now)) }
{
    let s = Box::new(alloc, s)?;
    let t = t.copy(alloc)?;
    disjoined(alloc, first, Box::into_inner(s), Ok(t))
}

/// A statement and the propositions, joined one by one.
#[tactic(auto, using(crate::proofs::JoinLemmas::conjunction_rules))]
fn join_to(
    alloc: Global,
    first: Place,
    s: Statement,
    ps: &[LabelledStatement],
) -> Result<Result<Statement, Refusal>, AllocError>
    ensures { IfOk result (λ o. o ≡ within statement_keeps first (conjunction_to s (map statement_of ps.now))) }
{
    let mut all = s;
    let mut rest = ps;
    while let Some((p, others)) = rest.split_first() {
        match and_one(alloc, first, all, &p.statement)? {
            Err(r) => return Ok(Err(r)),
            Ok(u) => all = u,
        }
        rest = others;
    }
    let o = within_statement(first, all);
    Ok(o)
}

/// The conjunction of the propositions, grouped to the left; truth of none. `TooLarge` at the place, which is tested with each
/// proposition that is joined.
pub fn join(
    alloc: Global,
    first: Place,
    ps: &LabelledStatements,
) -> Result<Result<Statement, Refusal>, AllocError>
    ensures { IfOk result (λ o. o ≡ joined_within first ps.now) }
{
    match ps.items.as_slice() {
        [] => {
            let o = within_statement(first, Statement::truth());
            Ok(o)
        }
        [p, others @ ..] => {
            let s = p.statement.copy(alloc)?;
            join_to(alloc, first, s, others)
        }
    }
}

/// The disjunction of a statement and further ones, grouped to the left. `TooLarge` at the place, which is tested with each
/// that is joined.
#[tactic(auto, using(crate::proofs::JoinLemmas::disjunction_rules))]
pub fn disjoin(
    alloc: Global,
    first: Place,
    s: Statement,
    ss: &Statements,
) -> Result<Result<Statement, Refusal>, AllocError>
    ensures { IfOk result (λ o. o ≡ disjoined_within first s ss.now) }
{
    let mut all = s;
    let mut rest = ss.items.as_slice();
    while let Some((t, others)) = rest.split_first() {
        match or_one(alloc, first, all, t)? {
            Err(r) => return Ok(Err(r)),
            Ok(u) => all = u,
        }
        rest = others;
    }
    let o = within_statement(first, all);
    Ok(o)
}
