//! Compact statements that were read and fit.
ghost use Rattle.std.specs.Prelude.{◌≡◌, OnOk};
ghost use Rattle.mz_steps.specs.Changes.{block_after, context_after};
ghost use Rattle.mz_justified.specs.Answers.{OnMade};
ghost use Rattle.mz_performing.specs.Begun.{FitsCompact, FitsKept, Begins};

use crate::ahead::keeps_ahead;
use crate::compact::read_compact;
use crate::earlier::tell;
use crate::sides::sides_keep;
use mz_base::place::Place;
use mz_context::context::Context;
use mz_core::outcome::Left;
use mz_justified::proof_fault::{ProofFault, ProofRefusal};
use mz_justified::walker::{Opening, Walker};
use mz_names::refusal::Refusal;
use mz_performing::begun::{Begun, step_of};
use mz_performing::labels::stated_under;
use mz_performing::linked::is_linked;
use mz_performing::perform::fit;
use mz_steps::block::{Block, Effect};
use mz_steps::changes::carry_out;
use mz_tree_proof::equality_step::EqualityStepTree;
use mz_tree_proof::propositions::PropositionTree;
use mz_tree_proof::reasoning::JustTree;
use mz_walk::compact::Compact;
use std::alloc::{AllocError, Global};
use std::mem;

/// A compact statement that was read, where it fits.
#[tactic(auto, using(crate::proofs::BegunLemmas::fitting_rules))]
fn fit_compact(
    walker: Walker<'_>,
    ctx: &Context,
    block: &Block,
    first: Place,
    concluded: bool,
    p: &PropositionTree,
    x: Box<Compact>,
) -> Result<Begun, ProofFault>
    ensures { OnMade result (FitsCompact walker.entry.env.now ctx.now block.now first concluded p.now x.value) }
{
    let stated = stated_under(walker.alloc, &p.label, &x.said.states)?;
    let step = step_of(walker.alloc, concluded, &x.said.states)?;
    let step = Box::new(walker.alloc, step)?;
    match fit(walker.alloc, walker.env, ctx, block, first, &step) {
        Ok(effect) => Ok(Begun {
            compact: Box::into_inner(x),
            step: Box::into_inner(step),
            effect,
            stated,
        }),
        Err(f) => Err(f),
    }
}

/// The same where the instances that the justifications of its further sides make keep the limits; else `TooLarge` at the step.
#[tactic(auto, using(crate::proofs::BegunLemmas::kept_rules))]
fn fit_kept(
    walker: Walker<'_>,
    ctx: &Context,
    block: &Block,
    first: Place,
    concluded: bool,
    p: &PropositionTree,
    sides: &[EqualityStepTree],
    x: Box<Compact>,
) -> Result<Begun, ProofFault>
    ensures { OnMade result (FitsKept walker.entry.env.now ctx.now block.now first concluded p.now sides.now x.value) }
{
    let kept = sides_keep(walker, ctx, sides, x.said.further.items.as_slice())?;
    match fit_compact(walker, ctx, block, first, concluded, p, x) {
        Ok(begun) => {
            if kept {
                Ok(begun)
            } else {
                Err(ProofFault::Refused(ProofRefusal::Resolve(Refusal::TooLarge(first))))
            }
        }
        Err(f) => Err(f),
    }
}

/// Reads a compact statement, where it is linked behind a statement just before, and sees that it fits. The context is as
/// before.
///
/// Refusals: `StepNoFit` at the step where it is linked and there is no statement just before; those of what is read, before
/// which there come, of the sides in front of it, `TooLarge` at the step and those of the justifications; then `StepNoFit` and
/// `TooLarge` at the step, the latter also where an instance that the justification of a further side makes is beyond the limits.
#[tactic(auto, using(crate::proofs::BegunLemmas::begin_rules))]
pub fn begin(
    walker: Walker<'_>,
    ctx: &mut Context,
    block: &Block,
    opening: Opening,
    concluded: bool,
    p: &PropositionTree,
    just: &JustTree,
    sides: &[EqualityStepTree],
    semicolon: Place,
    left: &mut Left,
) -> Result<Begun, ProofFault>
    ensures begins { OnMade result (Begins walker.entry.env.now ctx.old block.now opening.first opening.linked concluded p.now just.now sides.now semicolon left.old left.new) }
    ensures same { ctx.new ≡ ctx.old }
{
    if !is_linked(opening.linked, ctx) {
        return Err(ProofFault::Refused(ProofRefusal::StepNoFit(opening.first)));
    }
    let nodes = left.nodes;
    let count = left.obligations;
    match read_compact(walker, ctx, opening.first, p, sides, left) {
        Ok(x) => {
            let x = Box::new(walker.alloc, x)?;
            fit_kept(walker, ctx, block, opening.first, concluded, p, sides, x)
        }
        Err(f) => {
            let kept = keeps_ahead(walker, ctx, opening.linked, p, just, sides, nodes)?;
            Err(tell(
                walker,
                ctx,
                opening.first,
                semicolon,
                count,
                just,
                sides,
                kept,
                f,
            ))
        }
    }
}

/// Carries out the step, with what it states. Its effect is taken out.
fn carry(
    alloc: Global,
    ctx: &mut Context,
    block: &mut Block,
    x: &mut Begun,
) -> Result<(), AllocError>
    ensures context { OnOk result (ctx.new ≡ context_after ctx.old x.old.step x.old.effect x.old.stated) }
    ensures block { OnOk result (block.new ≡ block_after block.old x.old.effect) }
{
    let effect = mem::replace(&mut x.effect, Effect::Unchanged);
    carry_out(alloc, ctx, block, &x.step, effect, &x.stated)
}

/// What stands behind a compact statement that was justified.
pub fn finish(
    alloc: Global,
    ctx: &mut Context,
    block: &mut Block,
    x: Begun,
) -> Result<(), AllocError>
    ensures context { OnOk result (ctx.new ≡ context_after ctx.old x.step x.effect x.stated) }
    ensures block { OnOk result (block.new ≡ block_after block.old x.effect) }
{
    let mut x = Box::new(alloc, x)?;
    carry(alloc, ctx, block, &mut x)
}
