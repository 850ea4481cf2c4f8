//! One step as it was read, in its block.
ghost use Rattle.std.specs.Prelude.{◌≡◌, [], Some, None, IfOk, IfErr};
ghost use Rattle.mz_core.specs.declared.outcome.Left.{Left};
ghost use Rattle.mz_types.specs.Known.{typing};
ghost use Rattle.mz_steps.specs.Effects.{Acts, IsUnfit};
ghost use Rattle.mz_justified.specs.Answers.{OnMade};
ghost use Rattle.mz_walk.specs.Walked.{state, OneByOne};
ghost use Rattle.mz_walk.specs.Performing.{keeps, Performs, PerformsAlone, stating_within};
ghost use Rattle.mz_walk.specs.Answers.{reached};
ghost use Rattle.mz_performing.specs.Begun.{Fits};

use crate::read_steps::ReadSteps;
use mz_base::place::Place;
use mz_context::context::Context;
use mz_context::labelled::LabelledStatements;
use mz_environment::environment::Environment;
use mz_justified::proof_fault::{ProofFault, ProofRefusal};
use mz_names::refusal::Refusal;
use mz_parts::joined::join;
use mz_sizes::keeps::statement_keeps;
use mz_steps::block::{Block, Effect};
use mz_steps::changes::{carry_out, state};
use mz_steps::effects::effect;
use mz_steps::read_step::ReadStep;
use mz_thesis::thesis_fault::ThesisFault;
use mz_types::known::typing;
use std::alloc::Global;

fn keeps(e: &Effect) -> bool
    ensures { result ≡ keeps e.now }
{
    match e {
        Effect::Unchanged => true,
        Effect::Leaves(s) => statement_keeps(s),
        Effect::Says(_) => true,
    }
}

/// What the step does in the block.
fn act(
    alloc: Global,
    env: &Environment,
    ctx: &Context,
    block: &Block,
    step: &ReadStep,
) -> Result<Effect, ThesisFault>
    ensures acts { IfOk result (λ a. Acts (typing env.now ctx.now) env.now.steps block.now ctx.now step.now (Some a)) }
    ensures unfit { IfErr result (λ f. IsUnfit (typing env.now ctx.now) env.now.steps block.now ctx.now step.now f) }
{
    match typing(alloc, env, ctx)? {
        Some(clauses) => effect(alloc, clauses.as_slice(), &env.steps, ctx, block, step),
        None => effect(alloc, env.typing.as_slice(), &env.steps, ctx, block, step),
    }
}

/// What the step does in the block, where it fits; `first` is the place of its first token.
///
/// Refusals, in this order: `StepNoFit` and `TooLarge`, at the place.
#[tactic(auto, using(crate::proofs::PerformLemmas::fit_rules))]
pub fn fit(
    alloc: Global,
    env: &Environment,
    ctx: &Context,
    block: &Block,
    first: Place,
    step: &ReadStep,
) -> Result<Effect, ProofFault>
    ensures { OnMade result (Fits env.now first ctx.now block.now step.now) }
{
    match act(alloc, env, ctx, block, step) {
        Err(ThesisFault::NoFit) => Err(ProofFault::Refused(ProofRefusal::StepNoFit(first))),
        Err(ThesisFault::Memory) => Err(ProofFault::Memory),
        Ok(e) => {
            if keeps(&e) {
                Ok(e)
            } else {
                Err(ProofFault::Refused(ProofRefusal::Resolve(Refusal::TooLarge(first))))
            }
        }
    }
}

/// Performs the step, which states the propositions; `first` is the place of its first token.
///
/// Refusals, in this order: `StepNoFit` and `TooLarge`, at the place.
#[tactic(auto, using(crate::proofs::PerformLemmas::perform_rules))]
pub fn perform(
    alloc: Global,
    env: &Environment,
    ctx: &mut Context,
    block: &mut Block,
    first: Place,
    step: &ReadStep,
    ps: &LabelledStatements,
) -> Result<(), ProofFault>
    ensures { (l : Left) → OnMade result (λ o. Performs env.now first (state ctx.old block.old l) step.now ps.now (reached o (state ctx.new block.new l))) }
{
    match fit(alloc, env, ctx, block, first, step) {
        Ok(e) => {
            carry_out(alloc, ctx, block, step, e, ps)?;
            Ok(())
        }
        Err(f) => Err(f),
    }
}

/// Performs the step, which states nothing.
#[tactic(auto, using(crate::proofs::PerformLemmas::alone_rules))]
pub fn perform_alone(
    alloc: Global,
    env: &Environment,
    ctx: &mut Context,
    block: &mut Block,
    first: Place,
    step: &ReadStep,
) -> Result<(), ProofFault>
    ensures { (l : Left) → OnMade result (λ o. PerformsAlone env.now first (state ctx.old block.old l) step.now (reached o (state ctx.new block.new l))) }
{
    let none = LabelledStatements::new(alloc);
    perform(alloc, env, ctx, block, first, step, &none)
}

/// Performs the steps one after another.
#[tactic(auto, using(crate::proofs::PerformLemmas::all_rules))]
pub fn perform_all(
    alloc: Global,
    env: &Environment,
    ctx: &mut Context,
    block: &mut Block,
    first: Place,
    steps: &ReadSteps,
) -> Result<(), ProofFault>
    ensures { (l : Left) → OnMade result (λ o. OneByOne (PerformsAlone env.now first) (state ctx.old block.old l) steps.now (reached o (state ctx.new block.new l))) }
{
    let mut rest = steps.items.as_slice();
    while let Some((step, others)) = rest.split_first() {
        match perform_alone(alloc, env, ctx, block, first, step) {
            Ok(()) => rest = others,
            Err(f) => return Err(f),
        }
    }
    Ok(())
}

/// States the propositions; `TooLarge` at the place where their conjunction is beyond the limits.
#[tactic(auto, using(crate::proofs::PerformLemmas::state_rules))]
pub fn state_within(
    alloc: Global,
    ctx: &mut Context,
    block: &Block,
    first: Place,
    ps: &LabelledStatements,
) -> Result<(), ProofFault>
    ensures { (l : Left) → OnMade result (λ o. reached o (state ctx.new block.now l) ≡ stating_within first (state ctx.old block.now l) ps.now) }
{
    match join(alloc, first, ps)? {
        Err(r) => Err(ProofFault::Refused(ProofRefusal::Resolve(r))),
        Ok(_) => {
            state(alloc, ctx, ps)?;
            Ok(())
        }
    }
}
