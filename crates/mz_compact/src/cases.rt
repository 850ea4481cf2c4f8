//! How the cases of a split begin.
ghost use Rattle.mz_justified.specs.Answers.{OnMade};
ghost use Rattle.mz_performing.specs.Begun.{Supposing};

use mz_base::place::Place;
use mz_context::context::Context;
use mz_core::outcome::Left;
use mz_core::statements::Statements;
use mz_justified::proof_fault::{ProofFault, ProofRefusal};
use mz_justified::walker::Walker;
use mz_parts::joined::join;
use mz_parts::propositions::read_hypotheses;
use mz_performing::cases::state_case;
use mz_performing::fault::resolved;
use mz_steps::block::Outside;
use mz_tree_proof::propositions::HypothesesTree;

/// Reads what a case supposes, states it, and puts its conjunction behind those of other cases. Gives what has to be put aside
/// while the case lasts. `TooLarge` at the place where the conjunction is beyond the limits.
#[tactic(auto, using(mz_performing::proofs::CaseLemmas::suppose_rules))]
pub fn begin_case(
    walker: Walker<'_>,
    ctx: &mut Context,
    first: Place,
    tree: &HypothesesTree,
    left: &mut Left,
    suppositions: &mut Statements,
) -> Result<Outside, ProofFault>
    ensures { OnMade result (Supposing walker.entry.env.now ctx.old ctx.new first tree.now left.old left.new suppositions.old suppositions.new) }
{
    match read_hypotheses(walker.alloc, walker.env, ctx, 0, tree, left) {
        Ok(ps) => match join(walker.alloc, first, &ps)? {
            Ok(s) => {
                suppositions.push(s)?;
                let outside = state_case(walker.alloc, ctx, &ps)?;
                Ok(outside)
            }
            Err(r) => Err(ProofFault::Refused(ProofRefusal::Resolve(r))),
        },
        Err(f) => Err(resolved(f)),
    }
}
