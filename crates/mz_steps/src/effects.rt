//! What steps do where they stand.
ghost use Rattle.std.specs.Prelude.{◌≡◌, Some, None, IfOk, IfErr};
ghost use Rattle.std.specs.List.{list_any};
ghost use Rattle.mz_context.specs.Context.{next};
ghost use Rattle.mz_names.specs.Closing.{there_are};
ghost use Rattle.mz_thesis.specs.Applied.{Leads, Refuses};
ghost use Rattle.mz_thesis.specs.declared.step.Step.TheVariants as step;
ghost use Rattle.mz_now.specs.Stated.{brings_hidden};
ghost use Rattle.mz_steps.specs.Rows.{thesis_step};
ghost use Rattle.mz_steps.specs.Effects.{Led, IsUnled, ActsBy, IsUnfitBy, Acts, says, IsUnfit};

use crate::block::{Block, Effect};
use crate::read_step::ReadStep;
use crate::rows::{existential, next_number, parts_said, stands_in_now};
use mz_context::context::Context;
use mz_core::statement::Statement;
use mz_environment::unfoldings::Unfoldings;
use mz_ground::clause::Clause;
use mz_logic::term::Term;
use mz_names::variable::{Variable, Variables};
use mz_now::hidden::brings_hidden;
use mz_now::now_part::{NowPart, NowParts};
use mz_thesis::apply::apply;
use mz_thesis::step::Step;
use mz_thesis::thesis_fault::ThesisFault;
use std::alloc::{AllocError, Global};

/// What the step of the thesis leaves of the thesis of the context.
#[tactic(auto, using(crate::proofs::EffectLemmas::led_rules))]
fn led(
    alloc: Global,
    clauses: &[Clause],
    unfoldings: &Unfoldings,
    ctx: &Context,
    step: &Step,
) -> Result<Effect, ThesisFault>
    ensures led { IfOk result (λ e. Led clauses.now unfoldings.now ctx.now ctx.now.thesis step.now (Some e)) }
    ensures unled { IfErr result (λ f. IsUnled clauses.now unfoldings.now ctx.now ctx.now.thesis step.now f) }
{
    match &ctx.thesis {
        None => Err(ThesisFault::NoFit),
        Some(thesis) => {
            match apply(alloc, clauses, &ctx.constants, unfoldings, thesis, step) {
                Ok(after) => Ok(Effect::Leaves(after)),
                Err(fault) => Err(fault),
            }
        }
    }
}

fn by_let(
    alloc: Global,
    clauses: &[Clause],
    unfoldings: &Unfoldings,
    ctx: &Context,
    v: &Variable,
) -> Result<Effect, ThesisFault>
    ensures led { IfOk result (λ e. Led clauses.now unfoldings.now ctx.now ctx.now.thesis (step.Let (next ctx.now) v.now.ty) (Some e)) }
    ensures unled { IfErr result (λ f. IsUnled clauses.now unfoldings.now ctx.now ctx.now.thesis (step.Let (next ctx.now) v.now.ty) f) }
{
    let constant = next_number(ctx)?;
    let ty = v.ty.copy(alloc)?;
    led(alloc, clauses, unfoldings, ctx, &Step::Let { constant, ty })
}

fn by_assume(
    alloc: Global,
    clauses: &[Clause],
    unfoldings: &Unfoldings,
    ctx: &Context,
    s: &Statement,
) -> Result<Effect, ThesisFault>
    ensures led { IfOk result (λ e. Led clauses.now unfoldings.now ctx.now ctx.now.thesis (step.Assume s.now) (Some e)) }
    ensures unled { IfErr result (λ f. IsUnled clauses.now unfoldings.now ctx.now ctx.now.thesis (step.Assume s.now) f) }
{
    let s = s.copy(alloc)?;
    led(alloc, clauses, unfoldings, ctx, &Step::Assume(s))
}

fn by_given(
    alloc: Global,
    clauses: &[Clause],
    unfoldings: &Unfoldings,
    ctx: &Context,
    vs: &Variables,
    s: &Statement,
) -> Result<Effect, ThesisFault>
    ensures led { IfOk result (λ e. Led clauses.now unfoldings.now ctx.now ctx.now.thesis (step.Assume (there_are (next ctx.now) vs.now s.now)) (Some e)) }
    ensures unled { IfErr result (λ f. IsUnled clauses.now unfoldings.now ctx.now ctx.now.thesis (step.Assume (there_are (next ctx.now) vs.now s.now)) f) }
{
    let s = existential(alloc, ctx, vs, s)?;
    led(alloc, clauses, unfoldings, ctx, &Step::Assume(s))
}

fn by_thus(
    alloc: Global,
    clauses: &[Clause],
    unfoldings: &Unfoldings,
    ctx: &Context,
    s: &Statement,
) -> Result<Effect, ThesisFault>
    ensures led { IfOk result (λ e. Led clauses.now unfoldings.now ctx.now ctx.now.thesis (step.Thus s.now) (Some e)) }
    ensures unled { IfErr result (λ f. IsUnled clauses.now unfoldings.now ctx.now ctx.now.thesis (step.Thus s.now) f) }
{
    let s = s.copy(alloc)?;
    led(alloc, clauses, unfoldings, ctx, &Step::Thus(s))
}

fn by_take(
    alloc: Global,
    clauses: &[Clause],
    unfoldings: &Unfoldings,
    ctx: &Context,
    t: &Term,
) -> Result<Effect, ThesisFault>
    ensures led { IfOk result (λ e. Led clauses.now unfoldings.now ctx.now ctx.now.thesis (step.Take t.now) (Some e)) }
    ensures unled { IfErr result (λ f. IsUnled clauses.now unfoldings.now ctx.now ctx.now.thesis (step.Take t.now) f) }
{
    let t = t.copy(alloc)?;
    led(alloc, clauses, unfoldings, ctx, &Step::Take(t))
}

/// What the step leaves of the thesis of a proof.
fn in_proof(
    alloc: Global,
    clauses: &[Clause],
    unfoldings: &Unfoldings,
    ctx: &Context,
    step: &ReadStep,
) -> Result<Effect, ThesisFault>
    ensures acts { IfOk result (λ e. ActsBy clauses.now unfoldings.now ctx.now (thesis_step ctx.now step.now) (Some e)) }
    ensures unfit { IfErr result (λ f. IsUnfitBy clauses.now unfoldings.now ctx.now (thesis_step ctx.now step.now) f) }
{
    match step {
        ReadStep::Let(v) => by_let(alloc, clauses, unfoldings, ctx, v),
        ReadStep::Assume(s) => by_assume(alloc, clauses, unfoldings, ctx, s),
        ReadStep::Given(vs, s) => by_given(alloc, clauses, unfoldings, ctx, vs, s),
        ReadStep::Thus(s) => by_thus(alloc, clauses, unfoldings, ctx, s),
        ReadStep::Take(t) => by_take(alloc, clauses, unfoldings, ctx, t),
        ReadStep::Consider(_, _) => Ok(Effect::Unchanged),
        ReadStep::Reconsider(_) => Ok(Effect::Unchanged),
        ReadStep::Set(_) => Ok(Effect::Unchanged),
        ReadStep::State(_) => Ok(Effect::Unchanged),
    }
}

fn some_brings_hidden(ps: &[NowPart], said: &[NowPart]) -> bool
    ensures { result ≡ list_any (brings_hidden ps.now) said.now }
{
    for p in said {
        if brings_hidden(ps, p) {
            return true;
        }
    }
    false
}

/// What the step adds to what a `now` states, where it may be said behind these parts.
fn said_in_now(
    alloc: Global,
    ctx: &Context,
    ps: &NowParts,
    step: &ReadStep,
) -> Result<Option<Effect>, AllocError>
    ensures { IfOk result (λ o. o ≡ says ps.now ctx.now step.now) }
{
    if !stands_in_now(step) {
        return Ok(None);
    }
    let before = ps.items.as_slice();
    let said = parts_said(alloc, before, ctx, step)?;
    if some_brings_hidden(before, said.items.as_slice()) {
        return Ok(None);
    }
    Ok(Some(Effect::Says(said)))
}

/// What the step does in the block: what it leaves of the thesis of a proof, as it stands or after 1 to 8 unfoldings of
/// its first part, or what a `now` states by it. In a `now` no `take` stands, nor does a step that would bring a constant
/// of `consider` or `given` into what is stated.
pub fn effect(
    alloc: Global,
    clauses: &[Clause],
    unfoldings: &Unfoldings,
    ctx: &Context,
    block: &Block,
    step: &ReadStep,
) -> Result<Effect, ThesisFault>
    ensures acts { IfOk result (λ e. Acts clauses.now unfoldings.now block.now ctx.now step.now (Some e)) }
    ensures unfit { IfErr result (λ f. IsUnfit clauses.now unfoldings.now block.now ctx.now step.now f) }
{
    match block {
        Block::Proof => in_proof(alloc, clauses, unfoldings, ctx, step),
        Block::Now(ps) => match said_in_now(alloc, ctx, ps, step)? {
            Some(e) => Ok(e),
            None => Err(ThesisFault::NoFit),
        },
    }
}
