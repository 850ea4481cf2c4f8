//! The goal that is taken first.
ghost use Rattle.std.specs.Prelude.{◌≡◌, ◌++◌, ◌∷◌, [], IfOk, IsPermutation};

use crate::estimate::estimate;
use crate::goal::Goal;
use mz_logic::formulas::Formulas;
use mz_match::assignment::Assignment;
use mz_match::table::Table;
use std::alloc::{AllocError, Global};

/// A goal and the others.
#[derive(Drop)]
pub struct Picked<'a> {
    pub goal: Goal<'a>,
    pub rest: Vec<Goal<'a>>,
}

struct Pair<'a> {
    first: Goal<'a>,
    second: Goal<'a>,
}

/// The goal with the fewest branches, or the first that is found with none or with one.
pub fn pick<'a>(
    alloc: Global,
    table: &Table,
    values: &[usize],
    universals: &Formulas,
    goal: Goal<'a>,
    others: Vec<Goal<'a>>,
    e: &Assignment,
) -> Result<Picked<'a>, AllocError>
    ensures { IfOk result (λ p. IsPermutation (goal.entry ∷ others.entry.items) (p.goal ∷ p.rest.items)) }
{
    let mut best = goal;
    let mut left = others;
    let mut rest = Vec::new(alloc);
    let mut fewest = estimate(alloc, table, values, universals, &best, e)?;
    while fewest > 1 {
        match left.pop() {
            None => return Ok(Picked { goal: best, rest }),
            Some(g) => {
                let count = estimate(alloc, table, values, universals, &g, e)?;
                let pair = ordered(count < fewest, best, g);
                let Pair { first, second } = pair;
                best = first;
                fewest = count.min(fewest);
                rest.push(second)?;
            }
        }
    }
    rest.append(&mut left)?;
    Ok(Picked { goal: best, rest })
}

/// Two goals, the second first where they are to be exchanged.
fn ordered<'a>(exchanged: bool, first: Goal<'a>, second: Goal<'a>) -> Pair<'a>
    ensures { IsPermutation (first.entry ∷ second.entry ∷ []) (result.first ∷ result.second ∷ []) }
{
    if exchanged {
        Pair {
            first: second,
            second: first,
        }
    } else {
        Pair { first, second }
    }
}
