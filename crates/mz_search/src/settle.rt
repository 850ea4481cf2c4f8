//! Goals with at most one branch, one after another.
ghost use Rattle.std.specs.Prelude.{◌≡◌, ◌++◌, ◌∷◌, [], map, length, IfOk, MatchOption};
ghost use Rattle.std.specs.List.{AllByRecursion};
ghost use Rattle.mz_search.specs.Goals.{Known, known, goal_of, IsBelow};
ghost use Rattle.mz_search.specs.States.{State, Solvable, IsWithin, IsChoice, IsNext, state_of};

use crate::branch::Branch;
use crate::branches::branches;
use crate::goal::Goal;
use crate::pick::{Picked, pick};
use mz_logic::formulas::Formulas;
use mz_match::assignment::Assignment;
use mz_match::table::Table;
use std::alloc::{AllocError, Global};

/// A goal with its branches, and the other goals.
#[derive(Drop)]
pub struct Choice<'a> {
    pub goal: Goal<'a>,
    pub branches: Vec<Branch<'a>>,
    pub rest: Vec<Goal<'a>>,
    pub assignment: Assignment,
}

/// What is left where goals with one branch are followed: a goal with none or with several, or nothing.
pub fn settle<'a>(
    alloc: Global,
    table: &Table,
    values: &[usize],
    universals: &Formulas,
    state: Branch<'a>,
) -> Result<Option<Choice<'a>>, AllocError>
    requires { IsWithin (state_of state) }
    ensures { IfOk result (λ o. MatchOption o (Solvable (known table.now values.now universals.now) (map goal_of state.entry.goals.items) state.entry.assignment) (IsChoice (known table.now values.now universals.now) (state_of state.entry))) }
{
    let mut now = state;
    'goals: loop {
        match now.goals.pop() {
            None => return Ok(None),
            Some(last) => {
                let choice = choose(alloc, table, values, universals, last, now)?;
                if choice.branches.len() != 1 {
                    return Ok(Some(choice));
                }
                now = followed(choice)?;
            }
        }
    }
}

/// The goal that is taken first, with its branches.
fn choose<'a>(
    alloc: Global,
    table: &Table,
    values: &[usize],
    universals: &Formulas,
    last: Goal<'a>,
    others: Branch<'a>,
) -> Result<Choice<'a>, AllocError>
    requires { AllByRecursion (IsBelow (length others.assignment)) (goal_of last ∷ map goal_of others.goals.items) }
    ensures { IfOk result (λ c. IsChoice (known table.now values.now universals.now) (goal_of last.entry ∷ map goal_of others.entry.goals.items, others.entry.assignment) c) }
{
    let Branch { goals, assignment } = others;
    let picked = pick(alloc, table, values, universals, last, goals, &assignment)?;
    let Picked { goal, rest } = picked;
    let branches = branches(
        alloc,
        table,
        values,
        universals,
        goal.scope.as_slice(),
        goal.positive,
        goal.formula,
        &assignment,
    )?;
    Ok(Choice {
        goal,
        branches,
        rest,
        assignment,
    })
}

/// The only branch of a goal, with the other goals.
fn followed<'a>(choice: Choice<'a>) -> Result<Branch<'a>, AllocError>
    requires { length choice.branches.items ≡ 1 }
    ensures { IfOk result (λ b. (k : Known) (s : State) → IsChoice k s choice.entry → IsNext k s (state_of b)) }
{
    let Choice {
        goal: _,
        branches,
        rest,
        assignment,
    } = choice;
    let mut branches = branches;
    match branches.pop() {
        Some(branch) => with_others(branch, rest),
        None => Ok(Branch {
            goals: rest,
            assignment,
        }),
    }
}

fn with_others<'a>(branch: Branch<'a>, rest: Vec<Goal<'a>>) -> Result<Branch<'a>, AllocError>
    ensures { IfOk result (λ b. (b.goals.items ≡ rest.entry.items ++ branch.entry.goals.items) × (b.assignment ≡ branch.entry.assignment)) }
{
    let Branch { goals, assignment } = branch;
    let mut all = rest;
    let mut more = goals;
    all.append(&mut more)?;
    Ok(Branch {
        goals: all,
        assignment,
    })
}
