//! The steps of the skeleton: `let`, `assume`, `given` and `take`.
ghost use Rattle.std.specs.Prelude.{◌≡◌};
ghost use Rattle.mz_core.specs.declared.outcome.Left.{Left};
ghost use Rattle.mz_steps.specs.declared.read_step.ReadStep.TheVariants as read;
ghost use Rattle.mz_justified.specs.Answers.{OnMade};
ghost use Rattle.mz_walk.specs.Walked.{state};
ghost use Rattle.mz_walk.specs.Performing.{Performs};
ghost use Rattle.mz_walk.specs.Skeleton.{LetsSuch, Gives, StepsOn};
ghost use Rattle.mz_walk.specs.Answers.{reached};

use crate::examples::take_all;
use crate::hypotheses::{assume_conditions, assumes};
use crate::variables::lets;
use mz_base::place::Place;
use mz_context::context::Context;
use mz_core::outcome::Left;
use mz_environment::environment::Environment;
use mz_justified::proof_fault::{ProofFault, ProofRefusal};
use mz_parts::described::{Description, describe};
use mz_performing::fault::resolved;
use mz_performing::linked::is_now;
use mz_performing::perform::perform;
use mz_steps::block::Block;
use mz_steps::read_step::ReadStep;
use mz_tree_proof::skeleton::{GivenTree, LetTree, SkeletonTree};
use std::alloc::Global;

/// `let x be T such that A`: `let x be T`, and then `assume A`.
#[tactic(auto, using(mz_performing::proofs::SkeletonLemmas::let_rules))]
fn lets_such(
    alloc: Global,
    env: &Environment,
    ctx: &mut Context,
    block: &mut Block,
    first: Place,
    tree: &LetTree,
    left: &mut Left,
) -> Result<(), ProofFault>
    ensures { OnMade result (λ o. LetsSuch env.now first (state ctx.old block.old left.old) tree.now (reached o (state ctx.new block.new left.new))) }
{
    match lets(alloc, env, ctx, block, first, &tree.declarations, left) {
        Ok(()) => assume_conditions(alloc, env, ctx, block, first, &tree.such, left),
        Err(f) => Err(f),
    }
}

/// `given x being T such that A`, as it was read.
#[tactic(auto, using(mz_performing::proofs::SkeletonLemmas::given_step_rules))]
fn give(
    alloc: Global,
    env: &Environment,
    ctx: &mut Context,
    block: &mut Block,
    first: Place,
    d: Description,
) -> Result<(), ProofFault>
    ensures { (l : Left) → OnMade result (λ o. Performs env.now first (state ctx.old block.old l) (read.Given d.variables d.statement) d.propositions (reached o (state ctx.new block.new l))) }
{
    let step = ReadStep::Given(d.variables, d.statement);
    perform(alloc, env, ctx, block, first, &step, &d.propositions)
}

/// `given x being T such that A`.
#[tactic(auto, using(mz_performing::proofs::SkeletonLemmas::given_rules))]
fn gives(
    alloc: Global,
    env: &Environment,
    ctx: &mut Context,
    block: &mut Block,
    first: Place,
    tree: &GivenTree,
    left: &mut Left,
) -> Result<(), ProofFault>
    ensures { OnMade result (λ o. Gives env.now first (state ctx.old block.old left.old) tree.now (reached o (state ctx.new block.new left.new))) }
{
    let propositions = &tree.such.propositions;
    match describe(
        alloc,
        env,
        ctx,
        0,
        first,
        &tree.declarations,
        propositions,
        left,
    ) {
        Ok(d) => give(alloc, env, ctx, block, first, d),
        Err(f) => Err(resolved(f)),
    }
}

/// A step of the skeleton. Directly within a `now` a `take` is refused with `StepNoFit` at its place, before it is read.
#[tactic(auto, using(mz_performing::proofs::SkeletonLemmas::step_rules))]
pub fn step_on(
    alloc: Global,
    env: &Environment,
    ctx: &mut Context,
    block: &mut Block,
    first: Place,
    tree: &SkeletonTree,
    left: &mut Left,
) -> Result<(), ProofFault>
    ensures { OnMade result (λ o. StepsOn env.now first (state ctx.old block.old left.old) tree.now (reached o (state ctx.new block.new left.new))) }
{
    match tree {
        SkeletonTree::Let(t) => lets_such(alloc, env, ctx, block, first, t, left),
        SkeletonTree::Assume(t) => assumes(alloc, env, ctx, block, first, &t.hypotheses, left),
        SkeletonTree::Given(t) => gives(alloc, env, ctx, block, first, t, left),
        SkeletonTree::Take(t) => {
            if is_now(block) {
                return Err(ProofFault::Refused(ProofRefusal::StepNoFit(first)));
            }
            take_all(alloc, env, ctx, block, first, &t.taken, left)
        }
    }
}
