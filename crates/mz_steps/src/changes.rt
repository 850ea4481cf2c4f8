//! How blocks and contexts change by steps.
ghost use Rattle.std.specs.Prelude.{◌≡◌, ◌++◌, map, flat_map, IfOk, OnOk};
ghost use Rattle.mz_core.specs.Parts.{conjunction};
ghost use Rattle.mz_steps.specs.Changes.{block_after, with_thesis, statement_of, joined_by, label_of, with_stated, context_after, outside_of, at_start_of_proof, at_start_of_now};

use crate::block::{Block, Effect, Outside};
use crate::read_step::ReadStep;
use crate::rows::put_constants;
use mz_base::text::Text;
use mz_context::context::Context;
use mz_context::labelled::{LabelledStatement, LabelledStatements};
use mz_core::parts::conjunction;
use mz_core::statement::Statement;
use mz_core::statements::Statements;
use std::alloc::{AllocError, Global};

/// Does to the block, and to the thesis, what a step does.
pub fn take_effect(ctx: &mut Context, block: &mut Block, e: Effect) -> Result<(), AllocError>
    ensures context { OnOk result (ctx.new ≡ with_thesis ctx.old e) }
    ensures block { OnOk result (block.new ≡ block_after block.old e) }
{
    match e {
        Effect::Unchanged => Ok(()),
        Effect::Leaves(s) => {
            ctx.thesis = Some(s);
            Ok(())
        }
        Effect::Says(more) => match block {
            Block::Proof => Ok(()),
            Block::Now(ps) => ps.append(more),
        },
    }
}

/// The statements of propositions.
pub fn statements_of(alloc: Global, ps: &[LabelledStatement]) -> Result<Statements, AllocError>
    ensures { IfOk result (λ ss. ss ≡ map statement_of ps.now) }
{
    let mut out = Statements::new(alloc);
    for p in ps {
        out.push(p.statement.copy(alloc)?)?;
    }
    Ok(out)
}

fn joined_by(alloc: Global, ps: &LabelledStatements) -> Result<Option<Statement>, AllocError>
    ensures { IfOk result (λ o. o ≡ joined_by ps.now) }
{
    if ps.items.len() == 0 {
        return Ok(None);
    }
    let ss = statements_of(alloc, ps.items.as_slice())?;
    let s = conjunction(alloc, &ss)?;
    Ok(Some(s))
}

fn put_labels(
    alloc: Global,
    labelled: &mut LabelledStatements,
    ps: &[LabelledStatement],
) -> Result<(), AllocError>
    ensures { OnOk result (labelled.new ≡ labelled.old ++ flat_map label_of ps.now) }
{
    for p in ps {
        let label = p.label.copy(alloc)?;
        labelled.push_if_any(alloc, label, &p.statement)?;
    }
    Ok(())
}

/// States the propositions: each under its label, where that isn't empty, and together as the statement just before.
/// Without any there is no statement just before.
pub fn state(alloc: Global, ctx: &mut Context, ps: &LabelledStatements) -> Result<(), AllocError>
    ensures { OnOk result (ctx.new ≡ with_stated ctx.old ps.now) }
{
    ctx.previous = joined_by(alloc, ps)?;
    put_labels(alloc, &mut ctx.labelled, ps.items.as_slice())
}

/// Carries out a step that does this where it stands, and states the propositions.
pub fn carry_out(
    alloc: Global,
    ctx: &mut Context,
    block: &mut Block,
    step: &ReadStep,
    e: Effect,
    ps: &LabelledStatements,
) -> Result<(), AllocError>
    ensures context { OnOk result (ctx.new ≡ context_after ctx.old step.now e ps.now) }
    ensures block { OnOk result (block.new ≡ block_after block.old e) }
{
    put_constants(alloc, ctx, step)?;
    take_effect(ctx, block, e)?;
    state(alloc, ctx, ps)
}

/// Begins a proof of the thesis: there is no statement just before. Gives what has to be put aside while it lasts.
pub fn begin_proof(ctx: &mut Context, thesis: Statement) -> Outside
    ensures outside { result ≡ outside_of ctx.old }
    ensures context { ctx.new ≡ at_start_of_proof ctx.old thesis }
{
    let mark = ctx.mark();
    let previous = ctx.previous.take();
    let thesis = ctx.thesis.replace(thesis);
    Outside {
        mark,
        previous,
        thesis,
    }
}

fn thesis_copy(alloc: Global, ctx: &Context) -> Result<Option<Statement>, AllocError>
    ensures { IfOk result (λ o. o ≡ ctx.now.thesis) }
{
    match &ctx.thesis {
        Some(s) => {
            let s = s.copy(alloc)?;
            Ok(Some(s))
        }
        None => Ok(None),
    }
}

/// Begins a `now`: there is no statement just before, and `thesis` is read as around it. Gives what has to be put aside
/// while it lasts.
pub fn begin_now(alloc: Global, ctx: &mut Context) -> Result<Outside, AllocError>
    ensures outside { IfOk result (λ o. o ≡ outside_of ctx.old) }
    ensures context { OnOk result (ctx.new ≡ at_start_of_now ctx.old) }
{
    let thesis = thesis_copy(alloc, ctx)?;
    let mark = ctx.mark();
    let previous = ctx.previous.take();
    Ok(Outside {
        mark,
        previous,
        thesis,
    })
}
