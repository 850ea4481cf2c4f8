//! The grouping of runs.
ghost use Rattle.std.specs.Prelude.{◌≡◌, ◌<◌, ◌≤◌, suc, true, false, [], length, IfOk, OnOk};
ghost use Rattle.std.proofs.Common.{get_or};
ghost use Rattle.mz_grouping.specs.Grouping.{Grouped, has_neighbours, neighbours_behind};
ghost use Rattle.mz_grouping.specs.Open.{head, replaces_top, StandsSo, tail_head, Beats, ReadySo};

use crate::opened::{OpenSymbols, Opened, is_behind};
use std::alloc::{AllocError, Global};

/// An operand, or a symbol with its rank and whether it stands directly after an operand.
#[derive(Clone, Copy, Debug, PartialEq, Eq)]
pub enum Part {
    Operand,
    Symbol(u32, bool),
}

/// The operand at a place is taken; or the symbol at a place is applied, to what was read of its left and of its right,
/// where something stands there.
#[derive(Clone, Copy, Debug, PartialEq, Eq)]
pub enum Step {
    Take(usize),
    Apply(usize, bool, bool),
}

/// Whether two operands are neighbours.
#[tactic(auto, using(crate::proofs::NeighbourLemmas::neighbour_rules))]
pub fn has_neighbours(parts: &[Part]) -> bool
    ensures { result ≡ has_neighbours parts.now }
{
    let mut before = false;
    for part in parts {
        match part {
            Part::Operand => {
                if before {
                    return true;
                }
                before = true;
            }
            Part::Symbol(_, _) => before = false,
        }
    }
    false
}

/// Applies the symbols that a symbol at the place k replaces as heads.
#[tactic(auto, using(crate::proofs::GroupingLemmas::beaten_rules))]
fn close_beaten(
    parts: &[Part],
    waiting: &mut OpenSymbols,
    steps: &mut Vec<Step>,
    k: usize,
    rank: u32,
    after: bool,
) -> Result<(), AllocError>
    requires stands { StandsSo parts.now k waiting.old steps.old.items }
    requires beats { Beats (head k rank after) (tail_head parts.now k waiting.old) }
    ensures stands { OnOk result (StandsSo parts.now k waiting.new steps.new.items) }
    ensures beats { OnOk result (Beats (head k rank after) (tail_head parts.now k waiting.new)) }
    ensures top { OnOk result (replaces_top (head k rank after) waiting.new ≡ false) }
{
    while let Some(o) = waiting.pop_replaced(k, rank, after) {
        steps.push(Step::Apply(o.place, o.left, is_behind(o.place, k)))?;
    }
    Ok(())
}

/// Applies all symbols.
#[tactic(auto, using(crate::proofs::GroupingLemmas::closed_rules))]
fn close_all(
    parts: &[Part],
    waiting: &mut OpenSymbols,
    steps: &mut Vec<Step>,
) -> Result<(), AllocError>
    requires { StandsSo parts.now (length parts.now) waiting.old steps.old.items }
    ensures { OnOk result (Grouped 0 parts.now steps.new.items) }
{
    let k = parts.len();
    while let Some(o) = waiting.pop() {
        steps.push(Step::Apply(o.place, o.left, is_behind(o.place, k)))?;
    }
    Ok(())
}

/// The part at the place k.
#[tactic(auto, using(crate::proofs::GroupingLemmas::part_rules))]
fn put_part(
    parts: &[Part],
    waiting: &mut OpenSymbols,
    steps: &mut Vec<Step>,
    k: usize,
    part: Part,
) -> Result<(), AllocError>
    requires within { k < length parts.now }
    requires part { part ≡ get_or parts.now k part }
    requires ready { ReadySo parts.now k waiting.old steps.old.items }
    ensures { OnOk result (ReadySo parts.now (suc k) waiting.new steps.new.items) }
{
    match part {
        Part::Operand => steps.push(Step::Take(k))?,
        Part::Symbol(rank, after) => {
            close_beaten(parts, waiting, steps, k, rank, after)?;
            let left = waiting.stands_before(k);
            waiting.push(Opened {
                place: k,
                rank,
                after,
                left,
            })?;
        }
    }
    Ok(())
}

/// The steps by which the run is read.
#[tactic(auto, using(crate::proofs::GroupingLemmas::run_rules))]
pub fn grouped(alloc: Global, parts: &[Part]) -> Result<Vec<Step>, AllocError>
    requires { has_neighbours parts.now ≡ false }
    ensures { IfOk result (λ steps. Grouped 0 parts.now steps.items) }
{
    let mut waiting = OpenSymbols::new(alloc);
    let mut steps = Vec::new(alloc);
    for k in 0..parts.len() {
        put_part(parts, &mut waiting, &mut steps, k, parts[k])?;
    }
    close_all(parts, &mut waiting, &mut steps)?;
    Ok(steps)
}
