//! The calls that take reasonings.
ghost use Rattle.std.specs.Prelude.{◌≡◌, Some, OnOk};
ghost use Rattle.mz_base.specs.declared.place.Place.{Place};
ghost use Rattle.mz_tree.specs.Places.{first_place};
ghost use Rattle.mz_tree_proof.specs.Reasoning.{steps_of};
ghost use Rattle.mz_tree_proof.specs.SpellReasoning.{spell_statement};
ghost use Rattle.mz_steps.specs.Changes.{at_start_of_proof};
ghost use Rattle.mz_steps.specs.declared.block.Block.TheVariants.{Proof};
ghost use Rattle.mz_justified.specs.Answers.{OnMade};
ghost use Rattle.mz_walk.specs.Walked.{state};
ghost use Rattle.mz_walk.specs.Walk.{Proves, States};
ghost use Rattle.mz_walk.specs.Answers.{Brings};

use crate::walk;
use mz_base::place::Place;
use mz_context::context::Context;
use mz_core::outcome::Left;
use mz_core::statement::Statement;
use mz_formulas::sentence::Sentence;
use mz_justified::proof_fault::ProofFault;
use mz_justified::walker::{Opening, Walker};
use mz_obligations::obligation::Obligations;
use mz_performing::blocks::leave;
use mz_steps::block::Block;
use mz_steps::changes::begin_proof;
use mz_tree_proof::reasoning::{JustTree, StatementTree, Steps};
use mz_walk::prove_steps::ProveSteps;

/// Takes the steps of a proof of the thesis, behind which an `end` stands at the place. The context is as before.
pub fn skeleton(
    walker: Walker<'_>,
    ctx: &mut Context,
    thesis: &Statement,
    steps: &Steps,
    end: Place,
    left: &mut Left,
    os: &mut Obligations,
) -> Result<(), ProofFault>
    ensures proves { OnMade result (Brings (Proves walker.entry.env.now walker.entry.at (at_start_of_proof ctx.old thesis.now) (steps_of steps.now) end left.old) left.new os.old os.new) }
    ensures same { OnOk result (ctx.new ≡ ctx.old) }
{
    let thesis = thesis.copy(walker.alloc)?;
    let aside = begin_proof(ctx, thesis);
    let outside = Box::new(walker.alloc, aside)?;
    match walk::prove(walker, ctx, steps, end, left, os) {
        Ok(()) => {
            leave(ctx, Box::into_inner(outside));
            Ok(())
        }
        Err(f) => Err(f),
    }
}

/// Takes a statement of the article's own level, and adds what it makes to the context.
pub fn statement(
    walker: Walker<'_>,
    ctx: &mut Context,
    tree: &StatementTree,
    left: &mut Left,
    os: &mut Obligations,
) -> Result<(), ProofFault>
    ensures { OnMade result (λ o. (first : Place) × (first_place (spell_statement tree.now) ≡ Some first) × Brings (States walker.entry.env.now walker.entry.at (state ctx.old Proof left.old) first tree.now) (state ctx.new Proof left.new) os.old os.new o) }
{
    let first = tree.first_place();
    let mut block = Block::Proof;
    walk::state(walker, ctx, &mut block, first, tree, left, os)
}

/// Takes reasonings.
pub struct Proving;

impl ProveSteps for Proving {
    fn skeleton(
        walker: Walker<'_>,
        ctx: &mut Context,
        thesis: &Statement,
        steps: &Steps,
        end: Place,
        left: &mut Left,
        os: &mut Obligations,
    ) -> Result<(), ProofFault> {
        skeleton(walker, ctx, thesis, steps, end, left, os)
    }

    fn justify(
        walker: Walker<'_>,
        ctx: &mut Context,
        opening: Opening,
        behind: Place,
        tree: &JustTree,
        x: &Sentence,
        left: &mut Left,
        os: &mut Obligations,
    ) -> Result<(), ProofFault> {
        walk::justify(walker, ctx, opening, behind, tree, x, left, os)
    }

    fn statement(
        walker: Walker<'_>,
        ctx: &mut Context,
        tree: &StatementTree,
        left: &mut Left,
        os: &mut Obligations,
    ) -> Result<(), ProofFault> {
        statement(walker, ctx, tree, left, os)
    }
}
