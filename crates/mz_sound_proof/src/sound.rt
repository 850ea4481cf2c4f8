//! Reasonings taken, with what their obligations are worth: whoever meets these has derived what was to be proved.
ghost use Rattle.std.specs.Prelude.{IfOk};
ghost use Rattle.mz_sound_proof.specs.Sound.{IsProved, IsJustified, IsStated};

use mz_base::place::Place;
use mz_context::context::Context;
use mz_core::outcome::Left;
use mz_core::statement::Statement;
use mz_formulas::sentence::Sentence;
use mz_justified::proof_fault::ProofFault;
use mz_justified::walker::{Opening, Walker};
use mz_obligations::obligation::Obligations;
use mz_tree_proof::reasoning::{JustTree, StatementTree, Steps};
use mz_walk::prove_steps::ProveSteps;

/// Takes the steps of a proof of the thesis. Gives its obligations: where they are met, the thesis derives.
pub fn proof<P: ProveSteps>(
    walker: Walker<'_>,
    ctx: &mut Context,
    thesis: &Statement,
    steps: &Steps,
    end: Place,
    left: &mut Left,
) -> Result<Obligations, ProofFault>
    ensures { IfOk result (λ os. IsProved walker.entry.env.now ctx.old thesis.now os) }
{
    let mut os = Obligations::new(walker.alloc);
    match P::skeleton(walker, ctx, thesis, steps, end, left, &mut os) {
        Ok(()) => Ok(os),
        Err(f) => Err(f),
    }
}

/// Takes the justification of a sentence. Gives its obligations: where they are met, the sentence derives.
pub fn justification<P: ProveSteps>(
    walker: Walker<'_>,
    ctx: &mut Context,
    opening: Opening,
    behind: Place,
    tree: &JustTree,
    x: &Sentence,
    left: &mut Left,
) -> Result<Obligations, ProofFault>
    ensures { IfOk result (λ os. IsJustified walker.entry.env.now ctx.old x.now os) }
{
    let mut os = Obligations::new(walker.alloc);
    match P::justify(walker, ctx, opening, behind, tree, x, left, &mut os) {
        Ok(()) => Ok(os),
        Err(f) => Err(f),
    }
}

/// Takes a statement of an article's own level. Gives its obligations: where they are met, one may reason on behind it, and each
/// statement of the constants before it that derives behind it derives before it.
pub fn statement<P: ProveSteps>(
    walker: Walker<'_>,
    ctx: &mut Context,
    tree: &StatementTree,
    left: &mut Left,
) -> Result<Obligations, ProofFault>
    ensures { IfOk result (λ os. IsStated walker.entry.env.now ctx.old ctx.new os) }
{
    let mut os = Obligations::new(walker.alloc);
    match P::statement(walker, ctx, tree, left, &mut os) {
        Ok(()) => Ok(os),
        Err(f) => Err(f),
    }
}
