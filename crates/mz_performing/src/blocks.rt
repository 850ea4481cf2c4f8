//! Blocks of steps: how they begin and how they are left.
ghost use Rattle.std.specs.Prelude.{◌≡◌, IfOk, OnOk};
ghost use Rattle.mz_names.specs.Closing.{with_variables};
ghost use Rattle.mz_steps.specs.Changes.{outside_of, at_start_of_proof};
ghost use Rattle.mz_performing.specs.Blocks.{restored};
ghost use Rattle.mz_walk.specs.Walk.{is_truth, is_proved, stated_in};

use mz_context::context::Context;
use mz_core::statement::{Statement, StatementNode};
use mz_formulas::sentence::Sentence;
use mz_names::quantifiers::put_variables;
use mz_now::stated::stated_by;
use mz_steps::block::{Block, Outside};
use mz_steps::changes::begin_proof;
use std::alloc::{AllocError, Global};

/// Leaves a block: the lists of the context are as long as they were before it, and what was put aside comes back.
pub fn leave(ctx: &mut Context, outside: Outside)
    ensures { ctx.new ≡ restored ctx.old outside }
{
    ctx.constants.items.truncate(outside.mark.constants);
    ctx.reserved.items.truncate(outside.mark.reserved);
    ctx.labelled.items.truncate(outside.mark.labelled);
    ctx.functors.items.truncate(outside.mark.functors);
    ctx.predicates.items.truncate(outside.mark.predicates);
    ctx.letters.items.truncate(outside.mark.letters);
    ctx.previous = outside.previous;
    ctx.thesis = outside.thesis;
}

/// Begins the proof of a sentence, whose free reserved variables are constants in it. Gives what has to be put aside while it
/// lasts.
#[tactic(auto, using(crate::proofs::BlockLemmas::enter_rules))]
pub fn enter_proof(alloc: Global, ctx: &mut Context, s: &Sentence) -> Result<Outside, AllocError>
    ensures outside { IfOk result (λ o. o ≡ outside_of ctx.old) }
    ensures context { OnOk result (ctx.new ≡ at_start_of_proof (with_variables ctx.old s.now.variables) s.now.inner) }
{
    let thesis = s.inner.copy(alloc)?;
    let mark = ctx.mark();
    put_variables(alloc, ctx, s.variables.items.as_slice())?;
    let inside = begin_proof(ctx, thesis);
    Ok(Outside {
        mark,
        previous: inside.previous,
        thesis: inside.thesis,
    })
}

fn is_truth(s: &Statement) -> bool
    ensures { result ≡ is_truth s.now }
{
    match &s.node {
        StatementNode::Truth => true,
        _ => false,
    }
}

/// Whether nothing is left of the thesis.
pub fn is_proved(ctx: &Context) -> bool
    ensures { result ≡ is_proved ctx.now.thesis }
{
    match &ctx.thesis {
        Some(s) => is_truth(s),
        None => false,
    }
}

/// What the steps of a `now` state, where it keeps the limits.
#[tactic(auto, using(crate::proofs::BlockLemmas::stated_rules))]
pub fn stated_in(alloc: Global, block: &Block) -> Result<Option<Statement>, AllocError>
    ensures { IfOk result (λ o. o ≡ stated_in block.now) }
{
    match block {
        Block::Proof => Ok(None),
        Block::Now(ps) => {
            let o = stated_by(alloc, ps)?;
            Ok(o)
        }
    }
}
