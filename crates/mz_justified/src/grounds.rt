//! What a justification without a proof gives.
ghost use Rattle.std.specs.Bool.{OnTrue, OnFalse};
ghost use Rattle.std.specs.Prelude.{◌≡◌, [], List};
ghost use Rattle.mz_core.specs.Statement.{Statement};
ghost use Rattle.mz_steps.specs.Premises.{given};
ghost use Rattle.mz_justified.specs.Answers.{OnMade};
ghost use Rattle.mz_justified.specs.Justified.{place_of, Grounds};

use crate::proof_fault::{ProofFault, ProofRefusal};
use crate::walker::{Opening, Walker};
use mz_base::place::Place;
use mz_context::context::Context;
use mz_core::outcome::Left;
use mz_given::given::{Given, cited_in, given_in};
use mz_obligations::spend_obligation::spend_obligation;
use mz_tree_proof::references::SimpleTree;

/// The place of the justification: the word `by` or `from`, or the place of the token behind the statement where neither is
/// written.
pub fn place_of(behind: Place, tree: &SimpleTree) -> Place
    ensures { result ≡ place_of behind tree.now }
{
    match tree {
        SimpleTree::Nothing => behind,
        SimpleTree::By { by, .. } => *by,
        SimpleTree::From { from, .. } => *from,
    }
}

/// Whether a step follows a statement, where it is linked by `then` or `hence`.
#[tactic(auto, using(crate::proofs::GroundLemmas::follow_rules))]
fn follows(linked: bool, ctx: &Context) -> bool
    ensures nothing { OnFalse result (given linked ctx.now [] ≡ None) }
    ensures statement { OnTrue result ((cited : List Statement) → (ss : List Statement) × (given linked ctx.now cited ≡ Some ss)) }
{
    match &ctx.previous {
        Some(_) => true,
        None => !linked,
    }
}

/// What the justification gives: the cited statements, and in a step that is linked by `then` or `hence` the statement just
/// before in front of them; or a scheme and what is cited for its premises. One obligation is taken off what the article has left. `first` is the place of the step's first
/// token, and `behind` that of the token behind the statement.
///
/// Refusals, in this order: `StepNoFit` at the step where it is linked and follows no statement; `TooManyObligations` at the
/// justification; `UnknownLabel` at the first reference that cites nothing, that of a scheme among them.
#[tactic(auto, using(crate::proofs::GroundLemmas::ground_rules))]
pub fn ground(
    walker: Walker<'_>,
    ctx: &Context,
    opening: Opening,
    behind: Place,
    tree: &SimpleTree,
    left: &mut Left,
) -> Result<Given, ProofFault>
    ensures { OnMade result (λ o. Grounds walker.entry.env.now ctx.now opening.first opening.linked behind tree.now left.old o left.new) }
{
    if !follows(opening.linked, ctx) {
        return Err(ProofFault::Refused(ProofRefusal::StepNoFit(opening.first)));
    }
    if !spend_obligation(left) {
        let place = place_of(behind, tree);
        return Err(ProofFault::Refused(ProofRefusal::TooManyObligations(place)));
    }
    match cited_in(walker.alloc, walker.env, ctx, tree)? {
        Err(place) => Err(ProofFault::Refused(ProofRefusal::UnknownLabel(place))),
        Ok(cited) => match given_in(walker.alloc, opening.linked, ctx, cited)? {
            Some(g) => Ok(g),
            None => Err(ProofFault::Refused(ProofRefusal::StepNoFit(opening.first))),
        },
    }
}
