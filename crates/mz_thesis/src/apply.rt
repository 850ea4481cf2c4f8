//! The thesis after a step.
ghost use Rattle.std.specs.Prelude.{◌≡◌, IfOk, IfErr};
ghost use Rattle.mz_thesis.specs.Unfolding.{UnfoldsTo};
ghost use Rattle.mz_thesis.specs.Applied.{first_part, with_first_part, Unfolded, Applied, Leads, Refuses};

use crate::rows::{admits, thesis_after};
use crate::step::Step;
use crate::thesis_fault::ThesisFault;
use crate::unfolds::unfolds_to;
use mz_context::constants::Constants;
use mz_core::statement::{Statement, StatementNode};
use mz_environment::unfoldings::Unfoldings;
use mz_ground::clause::Clause;
use std::alloc::{AllocError, Global};

fn first_unfolds_to(
    alloc: Global,
    clauses: &[Clause],
    constants: &Constants,
    unfoldings: &Unfoldings,
    s: &Statement,
) -> Result<Option<Statement>, AllocError>
    ensures { IfOk result (λ o. UnfoldsTo clauses.now constants.now unfoldings.now (first_part s.now) o) }
{
    match &s.node {
        StatementNode::And(s, _) => first_unfolds_to(alloc, clauses, constants, unfoldings, s),
        _ => unfolds_to(alloc, clauses, constants, unfoldings, s),
    }
}

fn with_first_part(
    alloc: Global,
    definiens: Statement,
    s: &Statement,
) -> Result<Statement, AllocError>
    ensures { IfOk result (λ r. r ≡ with_first_part definiens s.now) }
{
    match &s.node {
        StatementNode::And(s, t) => {
            let s = Box::new(alloc, with_first_part(alloc, definiens, s)?)?;
            let t = Box::new(alloc, t.copy(alloc)?)?;
            Ok(Statement {
                node: StatementNode::And(s, t),
            })
        }
        _ => Ok(definiens),
    }
}

/// The thesis with its first part unfolded, or none where that unfolds to nothing.
#[tactic(auto, using(crate::proofs::AppliedLemmas::unfolded_rules))]
fn unfolded(
    alloc: Global,
    clauses: &[Clause],
    constants: &Constants,
    unfoldings: &Unfoldings,
    thesis: &Statement,
) -> Result<Option<Statement>, AllocError>
    ensures { IfOk result (λ o. Unfolded clauses.now constants.now unfoldings.now thesis.now o) }
{
    match first_unfolds_to(alloc, clauses, constants, unfoldings, thesis)? {
        None => Ok(None),
        Some(definiens) => {
            let s = with_first_part(alloc, definiens, thesis)?;
            Ok(Some(s))
        }
    }
}

/// The thesis after the step with at most so many unfoldings, as few as will do.
#[tactic(auto, using(crate::proofs::AppliedLemmas::applied_rules))]
fn applied(
    alloc: Global,
    clauses: &[Clause],
    constants: &Constants,
    unfoldings: &Unfoldings,
    most: u32,
    thesis: &Statement,
    step: &Step,
) -> Result<Option<Statement>, AllocError>
    ensures { IfOk result (λ o. Applied clauses.now constants.now unfoldings.now most thesis.now step.now o) }
{
    if admits(alloc, clauses, constants, thesis, step)? {
        let s = thesis_after(alloc, thesis, step)?;
        return Ok(Some(s));
    }
    if most == 0 {
        return Ok(None);
    }
    match unfolded(alloc, clauses, constants, unfoldings, thesis)? {
        None => Ok(None),
        Some(next) => applied(alloc, clauses, constants, unfoldings, most - 1, &next, step),
    }
}

/// The thesis after the step: as it stands, or else after 1 to 8 unfoldings of its first part, the first number that
/// fits.
pub fn apply(
    alloc: Global,
    clauses: &[Clause],
    constants: &Constants,
    unfoldings: &Unfoldings,
    thesis: &Statement,
    step: &Step,
) -> Result<Statement, ThesisFault>
    ensures leads { IfOk result (λ after. Leads clauses.now constants.now unfoldings.now thesis.now step.now after) }
    ensures refused { IfErr result (λ fault. Refuses clauses.now constants.now unfoldings.now thesis.now step.now fault) }
{
    match applied(alloc, clauses, constants, unfoldings, 8, thesis, step) {
        Ok(Some(s)) => Ok(s),
        Ok(None) => Err(ThesisFault::NoFit),
        Err(_) => Err(ThesisFault::Memory),
    }
}
