//! The search for classes of the variables that refute a formula.
ghost use Rattle.std.specs.Prelude.{◌≡◌, ◌↔◌, ◌∷◌, [], true, map, IfOk, IsTrue};
ghost use Rattle.mz_search.specs.Goals.{known, goal_of};
ghost use Rattle.mz_match.specs.RowsRefuted.{RowsRefute};
ghost use Rattle.mz_search.specs.States.{Solvable, IsWithin, state_of};
ghost use Rattle.mz_match.specs.Table.{rows_of};

use crate::branch::{Branch, joined, with_goal};
use crate::goal::goal_at;
use crate::parted::{Parts, parted};
use crate::settle::{Choice, settle};
use mz_logic::formula::Formula;
use mz_logic::formulas::Formulas;
use mz_match::assignment::Assignment;
use mz_match::table::Table;
use std::alloc::{AllocError, Global};

/// Whether some classes for the variables refute a formula without free indices by the rows of the
/// table and the listed universals.
pub fn is_refuted(
    alloc: Global,
    table: &Table,
    values: &[usize],
    universals: &Formulas,
    f: &Formula,
) -> Result<bool, AllocError>
    ensures { IfOk result (λ b. IsTrue b ↔ RowsRefute (rows_of table.now) values.now universals.now true [] f.now) }
{
    let goal = goal_at(alloc, &[], true, f)?;
    let none = Assignment::new(alloc);
    let start = with_goal(alloc, goal, none)?;
    let found = is_solvable(alloc, table, values, universals, start)?;
    Ok(found)
}

/// Whether some classes that agree with those of the state do what all its goals ask for.
pub fn is_solvable<'a>(
    alloc: Global,
    table: &Table,
    values: &[usize],
    universals: &Formulas,
    state: Branch<'a>,
) -> Result<bool, AllocError>
    requires { IsWithin (state_of state) }
    ensures { IfOk result (λ b. IsTrue b ↔ Solvable (known table.now values.now universals.now) (map goal_of state.entry.goals.items) state.entry.assignment) }
{
    match settle(alloc, table, values, universals, state)? {
        None => Ok(true),
        Some(choice) => {
            let Choice {
                goal,
                branches,
                rest,
                assignment,
            } = choice;
            let parts = parted(alloc, &goal, rest, &assignment)?;
            let Parts { near, far } = parts;
            let beside = Branch {
                goals: far,
                assignment,
            };
            if !is_solvable(alloc, table, values, universals, beside)? {
                return Ok(false);
            }
            for branch in &branches {
                let next = joined(alloc, branch, near.as_slice())?;
                if is_solvable(alloc, table, values, universals, next)? {
                    return Ok(true);
                }
            }
            Ok(false)
        }
    }
}
