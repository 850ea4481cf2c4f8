//! Goals without a common variable, apart.
ghost use Rattle.std.specs.Prelude.{◌≡◌, ◌++◌, ◌∷◌, [], true, false, map, IfOk, OnOk, if◌then◌else◌};
ghost use Rattle.std.specs.List.{AllByRecursion};
ghost use Rattle.mz_search.specs.Kept.{goal_kept};
ghost use Rattle.mz_search.specs.Goals.{goal_of};
ghost use Rattle.mz_search.specs.States.{AreParts, AreSplit};

use crate::goal::Goal;
use crate::kept::goal_kept;
use crate::marks::marks_from;
use mz_match::assignment::Assignment;
use std::alloc::{AllocError, Global};

/// Goals in two parts.
#[derive(Drop)]
pub struct Parts<'a> {
    pub near: Vec<Goal<'a>>,
    pub far: Vec<Goal<'a>>,
}

/// The goals that hang together with a goal by variables without a class, and those that don't.
pub fn parted<'a>(
    alloc: Global,
    goal: &Goal<'a>,
    rest: Vec<Goal<'a>>,
    e: &Assignment,
) -> Result<Parts<'a>, AllocError>
    ensures { IfOk result (λ p. AreParts (goal_of goal.now) e.now (map goal_of rest.entry.items) p) }
{
    let marks = marks_from(alloc, goal, rest.as_slice(), e)?;
    let parts = parted_by(alloc, marks.as_slice(), goal, rest, e)?;
    Ok(parts)
}

/// The same by marks, or all in the near part where the marks don't fit.
fn parted_by<'a>(
    alloc: Global,
    marks: &[bool],
    goal: &Goal<'a>,
    rest: Vec<Goal<'a>>,
    e: &Assignment,
) -> Result<Parts<'a>, AllocError>
    ensures { IfOk result (λ p. AreParts (goal_of goal.now) e.now (map goal_of rest.entry.items) p) }
{
    let within = goal_kept(alloc, e, marks, true, goal)?;
    let parts = split(alloc, e, marks, rest)?;
    let outside = are_outside(alloc, e, marks, parts.far.as_slice())?;
    if within && outside {
        Ok(parts)
    } else {
        let whole = together(alloc, parts)?;
        Ok(whole)
    }
}

/// The goals of which each open variable is marked, and the others.
fn split<'a>(
    alloc: Global,
    e: &Assignment,
    marks: &[bool],
    goals: Vec<Goal<'a>>,
) -> Result<Parts<'a>, AllocError>
    ensures { IfOk result (λ p. AreSplit e.now marks.now (map goal_of goals.entry.items) (map goal_of p.near.items) (map goal_of p.far.items)) }
{
    let mut left = goals;
    let mut near = Vec::new(alloc);
    let mut far = Vec::new(alloc);
    while let Some(g) = left.pop() {
        let within = goal_kept(alloc, e, marks, true, &g)?;
        put(within, g, &mut near, &mut far)?;
    }
    Ok(Parts { near, far })
}

/// Puts a goal at the end of the near ones, or of the far ones where `within` is false.
fn put<'a>(
    within: bool,
    g: Goal<'a>,
    near: &mut Vec<Goal<'a>>,
    far: &mut Vec<Goal<'a>>,
) -> Result<(), AllocError>
    ensures near { OnOk result (near.new.items ≡ (if within then near.old.items ++ g.entry ∷ [] else near.old.items)) }
    ensures far { OnOk result (far.new.items ≡ (if within then far.old.items else far.old.items ++ g.entry ∷ [])) }
{
    if within {
        near.push(g)?;
        Ok(())
    } else {
        far.push(g)?;
        Ok(())
    }
}

/// Whether no open variable of the goals is marked.
fn are_outside(
    alloc: Global,
    e: &Assignment,
    marks: &[bool],
    goals: &[Goal],
) -> Result<bool, AllocError>
    ensures { IfOk result (λ b. b ≡ true → AllByRecursion (λ g. goal_kept e.now marks.now false g ≡ true) (map goal_of goals.now)) }
{
    for g in goals {
        if !goal_kept(alloc, e, marks, false, g)? {
            return Ok(false);
        }
    }
    Ok(true)
}

/// All goals in the near part.
fn together<'a>(alloc: Global, parts: Parts<'a>) -> Result<Parts<'a>, AllocError>
    ensures { IfOk result (λ p. (p.near.items ≡ parts.entry.near.items ++ parts.entry.far.items) × (p.far.items ≡ [])) }
{
    let Parts { near, far } = parts;
    let mut all = near;
    let mut rest = far;
    all.append(&mut rest)?;
    Ok(Parts {
        near: all,
        far: Vec::new(alloc),
    })
}
