//! What justifications ask.
ghost use Rattle.std.specs.Bool.{OnTrue, OnFalse};
ghost use Rattle.std.specs.Prelude.{◌≡◌, Some, None, IfOk};
ghost use Rattle.mz_obligations.specs.Obligations.{IsObligation, obligation_spent};

use crate::obligation::{Duty, Extent, Obligation};
use mz_base::place::Place;
use mz_context::constants::Constants;
use mz_core::outcome::Left;
use mz_core::statement::Statement;
use mz_core::statements::Statements;
use mz_environment::unfoldings::Unfoldings;
use mz_ground::clause::Clause;
use mz_ground::clauses::Clauses;
use mz_problem::asked::asked;
use std::alloc::{AllocError, Global};

/// The obligation of a statement at the place, where so much can be used and these are the clauses of the letters in
/// force: its problem by what is given. The unfoldings are those that `by` uses.
pub fn obligation(
    alloc: Global,
    clauses: &[Clause],
    unfoldings: &Unfoldings,
    constants: &Constants,
    given: &Statements,
    s: &Statement,
    place: Place,
    extent: Extent,
    letters: &Clauses,
) -> Result<Obligation, AllocError>
    ensures { IfOk result (λ o. IsObligation clauses.now unfoldings.now constants.now given.now s.now place extent letters.now o) }
{
    let letters = letters.copy(alloc)?;
    let problem = asked(alloc, clauses, constants, unfoldings, given, s)?;
    Ok(Obligation {
        place,
        extent,
        letters,
        duty: Duty::By(problem),
    })
}

/// Takes one obligation off what an article has left; false where none was left.
#[tactic(auto, using(crate::proofs::SpentLemmas::spent_rules))]
pub fn spend_obligation(left: &mut Left) -> bool
    ensures spent { OnTrue result (obligation_spent left.old ≡ Some left.new) }
    ensures none { OnFalse result (obligation_spent left.old ≡ None) }
{
    if left.obligations == 0 {
        return false;
    }
    left.obligations -= 1;
    true
}
