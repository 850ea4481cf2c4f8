//! Goals of the search.
ghost use Rattle.std.specs.Prelude.{◌≡◌, ◌++◌, ◌∷◌, [], map, IfOk, OnOk};
ghost use Rattle.mz_search.specs.Goals.{Refute, goal_of};

use mz_logic::formula::Formula;
use std::alloc::{AllocError, Global};

/// A formula to refute, or its negation where `positive` is false.
#[derive(Drop)]
pub struct Goal<'a> {
    /// The places of the variables' classes, the innermost first.
    pub scope: Vec<usize>,
    pub positive: bool,
    pub formula: &'a Formula,
}

/// The goal of a formula.
pub fn goal_at<'a>(
    alloc: Global,
    scope: &[usize],
    positive: bool,
    formula: &'a Formula,
) -> Result<Goal<'a>, AllocError>
    ensures { IfOk result (λ g. goal_of g ≡ Refute scope.now positive formula.now) }
{
    let scope = Vec::from_slice(alloc, scope)?;
    Ok(Goal {
        scope,
        positive,
        formula,
    })
}

/// The goal of a formula under one more variable.
pub fn goal_under<'a>(
    alloc: Global,
    place: usize,
    scope: &[usize],
    positive: bool,
    formula: &'a Formula,
) -> Result<Goal<'a>, AllocError>
    ensures { IfOk result (λ g. goal_of g ≡ Refute (place ∷ scope.now) positive formula.now) }
{
    let mut wider = Vec::new(alloc);
    wider.push(place)?;
    for x in scope {
        wider.push(*x)?;
    }
    Ok(Goal {
        scope: wider,
        positive,
        formula,
    })
}

/// The same goals.
pub fn copied_goals<'a>(alloc: Global, goals: &[Goal<'a>]) -> Result<Vec<Goal<'a>>, AllocError>
    ensures { IfOk result (λ gs. map goal_of gs.items ≡ map goal_of goals.now) }
{
    let mut out = Vec::new(alloc);
    for g in goals {
        let same = goal_at(alloc, g.scope.as_slice(), g.positive, g.formula)?;
        out.push(same)?;
    }
    Ok(out)
}
