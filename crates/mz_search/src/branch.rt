//! Branches of the search.
ghost use Rattle.std.specs.Prelude.{◌≡◌, ◌++◌, ◌∷◌, [], false, map, IfOk};
ghost use Rattle.mz_search.specs.Goals.{Refute, goal_of};
ghost use Rattle.mz_search.specs.States.{state_of};

use crate::goal::{Goal, copied_goals, goal_at};
use mz_logic::formula::Formula;
use mz_match::assignment::Assignment;
use std::alloc::{AllocError, Global};

/// Goals, with the classes that their variables have so far.
#[derive(Drop)]
pub struct Branch<'a> {
    pub goals: Vec<Goal<'a>>,
    pub assignment: Assignment,
}

/// One branch with one goal.
pub fn one_goal<'a>(
    alloc: Global,
    scope: &[usize],
    positive: bool,
    formula: &'a Formula,
    e: &Assignment,
) -> Result<Vec<Branch<'a>>, AllocError>
    ensures { IfOk result (λ bs. map state_of bs.items ≡ (Refute scope.now positive formula.now ∷ [], e.now) ∷ []) }
{
    let goal = goal_at(alloc, scope, positive, formula)?;
    let assignment = e.copy(alloc)?;
    let branch = with_goal(alloc, goal, assignment)?;
    only(alloc, branch)
}

/// A branch with one goal.
pub fn with_goal<'a>(
    alloc: Global,
    goal: Goal<'a>,
    assignment: Assignment,
) -> Result<Branch<'a>, AllocError>
    ensures { IfOk result (λ b. state_of b ≡ (goal_of goal.entry ∷ [], assignment)) }
{
    let mut goals = Vec::new(alloc);
    goals.push(goal)?;
    Ok(Branch { goals, assignment })
}

/// One branch with the negations of two formulas as goals.
pub fn two_goals<'a>(
    alloc: Global,
    scope: &[usize],
    first: &'a Formula,
    second: &'a Formula,
    e: &Assignment,
) -> Result<Vec<Branch<'a>>, AllocError>
    ensures { IfOk result (λ bs. map state_of bs.items ≡ (Refute scope.now false first.now ∷ Refute scope.now false second.now ∷ [], e.now) ∷ []) }
{
    let first = goal_at(alloc, scope, false, first)?;
    let second = goal_at(alloc, scope, false, second)?;
    let assignment = e.copy(alloc)?;
    let branch = with_goals(alloc, first, second, assignment)?;
    only(alloc, branch)
}

fn with_goals<'a>(
    alloc: Global,
    first: Goal<'a>,
    second: Goal<'a>,
    assignment: Assignment,
) -> Result<Branch<'a>, AllocError>
    ensures { IfOk result (λ b. state_of b ≡ (goal_of first.entry ∷ goal_of second.entry ∷ [], assignment)) }
{
    let mut goals = Vec::new(alloc);
    goals.push(first)?;
    goals.push(second)?;
    Ok(Branch { goals, assignment })
}

/// A list of one branch.
pub fn only<'a>(alloc: Global, branch: Branch<'a>) -> Result<Vec<Branch<'a>>, AllocError>
    ensures { IfOk result (λ bs. map state_of bs.items ≡ state_of branch.entry ∷ []) }
{
    let mut out = Vec::new(alloc);
    out.push(branch)?;
    Ok(out)
}

/// The branch with further goals.
pub fn joined<'a>(
    alloc: Global,
    branch: &Branch<'a>,
    others: &[Goal<'a>],
) -> Result<Branch<'a>, AllocError>
    ensures { IfOk result (λ b. state_of b ≡ (map goal_of branch.now.goals.items ++ map goal_of others.now, branch.now.assignment)) }
{
    let mut goals = copied_goals(alloc, branch.goals.as_slice())?;
    let mut rest = copied_goals(alloc, others)?;
    goals.append(&mut rest)?;
    let assignment = branch.assignment.copy(alloc)?;
    Ok(Branch { goals, assignment })
}
