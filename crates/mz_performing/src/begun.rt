//! Compact statements that were read and fit.
ghost use Rattle.std.specs.Prelude.{◌≡◌, IfOk};
ghost use Rattle.mz_walk.specs.Walk.{step_of};

use mz_context::labelled::LabelledStatements;
use mz_core::statement::Statement;
use mz_steps::block::Effect;
use mz_steps::read_step::ReadStep;
use mz_walk::compact::Compact;
use std::alloc::{AllocError, Global};

/// A compact statement that was read and fits: what it was read to, its step, what this does in its block, and what it states.
#[derive(Drop)]
pub struct Begun {
    pub compact: Compact,
    pub step: ReadStep,
    pub effect: Effect,
    pub stated: LabelledStatements,
}

/// The step of a statement: with `thus`, `hence` and `hereby` it is concluded, else it is stated only.
pub fn step_of(alloc: Global, concluded: bool, s: &Statement) -> Result<ReadStep, AllocError>
    ensures { IfOk result (λ r. r ≡ step_of concluded s.now) }
{
    let s = s.copy(alloc)?;
    if concluded {
        Ok(ReadStep::Thus(s))
    } else {
        Ok(ReadStep::State(s))
    }
}
