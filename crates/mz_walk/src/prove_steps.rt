//! The calls that take reasonings.
ghost use Rattle.std.specs.Prelude.{◌≡◌, Some, OnOk};
ghost use Rattle.mz_base.specs.declared.place.Place.{Place};
ghost use Rattle.mz_tree.specs.Places.{first_place};
ghost use Rattle.mz_tree_proof.specs.Reasoning.{steps_of};
ghost use Rattle.mz_tree_proof.specs.SpellReasoning.{spell_statement};
ghost use Rattle.mz_steps.specs.Changes.{at_start_of_proof};
ghost use Rattle.mz_steps.specs.declared.block.Block.TheVariants.{Proof};
ghost use Rattle.mz_justified.specs.Answers.{OnMade};
ghost use Rattle.mz_walk.specs.Walked.{state};
ghost use Rattle.mz_walk.specs.Walk.{Justifies, Proves, States};
ghost use Rattle.mz_walk.specs.Answers.{Brings};

use mz_base::place::Place;
use mz_context::context::Context;
use mz_core::outcome::Left;
use mz_core::statement::Statement;
use mz_formulas::sentence::Sentence;
use mz_justified::proof_fault::ProofFault;
use mz_justified::walker::{Opening, Walker};
use mz_obligations::obligation::Obligations;
use mz_tree_proof::reasoning::{JustTree, StatementTree, Steps};

/// Calls that take reasonings, of which `at` says how much stood above them. Each puts the obligations that it makes behind the
/// others, in the order of the text, and lowers what the article has left. After a refusal nothing is said of the context, of
/// the obligations and of what is left.
///
/// Refusals, the first in the order of reading: `StepNoFit`, `ThesisLeft`, `UnknownLabel`, `Resolve`, `TooManyObligations` and
/// `NotBuilt`, each with its place. `Memory` for want of memory.
pub trait ProveSteps {
    /// Takes the steps of a proof of the thesis, behind which an `end` stands at the place. The context is as before.
    fn skeleton(
        walker: Walker<'_>,
        ctx: &mut Context,
        thesis: &Statement,
        steps: &Steps,
        end: Place,
        left: &mut Left,
        os: &mut Obligations,
    ) -> Result<(), ProofFault>
        ensures proves { OnMade result (Brings (Proves walker.entry.env.now walker.entry.at (at_start_of_proof ctx.old thesis.now) (steps_of steps.now) end left.old) left.new os.old os.new) }
        ensures same { OnOk result (ctx.new ≡ ctx.old) };

    /// Takes the justification of a sentence, a simple one or a proof, in which its free reserved variables are constants.
    /// `first` is the place of the step's first token, and `behind` that of the token behind the sentence; where it is linked,
    /// the statement just before is in front of what is cited. The context is as before.
    fn justify(
        walker: Walker<'_>,
        ctx: &mut Context,
        opening: Opening,
        behind: Place,
        tree: &JustTree,
        x: &Sentence,
        left: &mut Left,
        os: &mut Obligations,
    ) -> Result<(), ProofFault>
        ensures justifies { OnMade result (Brings (Justifies walker.entry.env.now walker.entry.at ctx.old opening.first opening.linked behind tree.now x.now left.old) left.new os.old os.new) }
        ensures same { OnOk result (ctx.new ≡ ctx.old) };

    /// Takes a statement of the article's own level, and adds what it makes to the context.
    fn statement(
        walker: Walker<'_>,
        ctx: &mut Context,
        tree: &StatementTree,
        left: &mut Left,
        os: &mut Obligations,
    ) -> Result<(), ProofFault>
        ensures { OnMade result (λ o. (first : Place) × (first_place (spell_statement tree.now) ≡ Some first) × Brings (States walker.entry.env.now walker.entry.at (state ctx.old Proof left.old) first tree.now) (state ctx.new Proof left.new) os.old os.new o) };
}
