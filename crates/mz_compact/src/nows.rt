//! What stands behind a `now` or a `hereby`.
ghost use Rattle.std.specs.Prelude.{◌≡◌, ◌∷◌, []};
ghost use Rattle.mz_core.specs.declared.outcome.Left.{Left};
ghost use Rattle.mz_parts.specs.Propositions.{label_in};
ghost use Rattle.mz_justified.specs.Answers.{OnMade};
ghost use Rattle.mz_walk.specs.Walked.{state};
ghost use Rattle.mz_walk.specs.Performing.{Performs};
ghost use Rattle.mz_walk.specs.Compact.{stated_under};
ghost use Rattle.mz_walk.specs.Walk.{step_of};
ghost use Rattle.mz_walk.specs.Answers.{reached};
ghost use Rattle.mz_performing.specs.Nows.{StatesNow};

use mz_base::place::Place;
use mz_context::context::Context;
use mz_core::statement::Statement;
use mz_justified::proof_fault::{ProofFault, ProofRefusal};
use mz_justified::walker::Walker;
use mz_names::refusal::Refusal;
use mz_performing::begun::step_of;
use mz_performing::blocks::stated_in;
use mz_performing::labels::stated_under;
use mz_performing::perform::perform;
use mz_steps::block::Block;
use mz_tree_proof::references::LabelTree;

/// What a block states is performed.
#[tactic(auto, using(crate::proofs::NowLemmas::said_rules))]
fn say(
    walker: Walker<'_>,
    ctx: &mut Context,
    block: &mut Block,
    first: Place,
    concluded: bool,
    label: &Option<LabelTree>,
    s: &Statement,
) -> Result<(), ProofFault>
    ensures { (l : Left) → OnMade result (λ o. Performs walker.entry.env.now first (state ctx.old block.old l) (step_of concluded s.now) (stated_under (label_in label.now) s.now ∷ []) (reached o (state ctx.new block.new l))) }
{
    let stated = stated_under(walker.alloc, label, s)?;
    let step = step_of(walker.alloc, concluded, s)?;
    let step = Box::new(walker.alloc, step)?;
    perform(walker.alloc, walker.env, ctx, block, first, &step, &stated)
}

/// What the steps of a `now` state is stated, or concluded by a `hereby`. `TooLarge` at the place where it is beyond the limits.
#[tactic(auto, using(crate::proofs::NowLemmas::now_rules))]
pub fn state_now(
    walker: Walker<'_>,
    ctx: &mut Context,
    block: &mut Block,
    first: Place,
    concluded: bool,
    label: &Option<LabelTree>,
    inside: &Block,
) -> Result<(), ProofFault>
    ensures { (l : Left) → OnMade result (λ o. StatesNow walker.entry.env.now first (state ctx.old block.old l) concluded (label_in label.now) inside.now (reached o (state ctx.new block.new l))) }
{
    match stated_in(walker.alloc, inside)? {
        None => Err(ProofFault::Refused(ProofRefusal::Resolve(Refusal::TooLarge(first)))),
        Some(s) => say(walker, ctx, block, first, concluded, label, &s),
    }
}
