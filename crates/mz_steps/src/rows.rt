//! The table of steps.
ghost use Rattle.std.specs.Prelude.{◌≡◌, ◌++◌, ◌∷◌, [], IfOk, OnOk};
ghost use Rattle.mz_context.specs.Context.{next};
ghost use Rattle.mz_context.specs.Changes.{with_constant};
ghost use Rattle.mz_names.specs.Closing.{there_are};
ghost use Rattle.mz_now.specs.Stated.{defined};
ghost use Rattle.mz_steps.specs.Rows.{constant_for, with_constants, hidden_from, parts_said, stands_in_now};

use crate::read_step::{Definition, ReadStep};
use mz_context::constants::Constant;
use mz_context::context::Context;
use mz_core::statement::Statement;
use mz_names::quantifiers::{put_variable, put_variables, there_are};
use mz_names::variable::{Variable, Variables};
use mz_now::hidden::defined;
use mz_now::now_part::{NowPart, NowParts};
use std::alloc::{AllocError, Global};

/// The number of the next constant. More than 4,294,967,295 constants are as no memory.
pub fn next_number(ctx: &Context) -> Result<u32, AllocError>
    ensures { IfOk result (λ n. n ≡ next ctx.now) }
{
    let next = ctx.next();
    if next > 4294967295 {
        return Err(AllocError);
    }
    Ok(next as u32)
}

/// There are objects of the variables' types with the statement, in which these are the next constants.
pub fn existential(
    alloc: Global,
    ctx: &Context,
    vs: &Variables,
    s: &Statement,
) -> Result<Statement, AllocError>
    ensures { IfOk result (λ r. r ≡ there_are (next ctx.now) vs.now s.now) }
{
    let n = next_number(ctx)?;
    let s = s.copy(alloc)?;
    there_are(alloc, n, vs, s)
}

fn constant_for(alloc: Global, d: &Definition) -> Result<Constant, AllocError>
    ensures { IfOk result (λ k. k ≡ constant_for d.now) }
{
    let name = d.name.copy(alloc)?;
    let ty = d.ty.copy(alloc)?;
    let term = d.term.copy(alloc)?;
    Ok(Constant {
        name,
        ty,
        equal: Some(term),
    })
}

fn put_definition(alloc: Global, ctx: &mut Context, d: &Definition) -> Result<(), AllocError>
    ensures { OnOk result (ctx.new ≡ with_constant ctx.old (constant_for d.now)) }
{
    let k = constant_for(alloc, d)?;
    let _number = ctx.add(k)?;
    Ok(())
}

/// Puts the constants of the step into force.
pub fn put_constants(alloc: Global, ctx: &mut Context, step: &ReadStep) -> Result<(), AllocError>
    ensures { OnOk result (ctx.new ≡ with_constants ctx.old step.now) }
{
    match step {
        ReadStep::Let(v) => put_variable(alloc, ctx, v),
        ReadStep::Assume(_) => Ok(()),
        ReadStep::Given(vs, _) => put_variables(alloc, ctx, vs.items.as_slice()),
        ReadStep::Thus(_) => Ok(()),
        ReadStep::Take(_) => Ok(()),
        ReadStep::Consider(vs, _) => put_variables(alloc, ctx, vs.items.as_slice()),
        ReadStep::Reconsider(d) => put_definition(alloc, ctx, d),
        ReadStep::Set(d) => put_definition(alloc, ctx, d),
        ReadStep::State(_) => Ok(()),
    }
}

fn one_part(alloc: Global, p: NowPart) -> Result<NowParts, AllocError>
    ensures { IfOk result (λ ps. ps ≡ p ∷ []) }
{
    let mut out = NowParts::new(alloc);
    out.push(p)?;
    Ok(out)
}

/// Puts behind the parts that the constants from the number on, one for each variable, are hidden.
fn hide(from: u32, vs: &[Variable], out: &mut NowParts) -> Result<(), AllocError>
    ensures { OnOk result (out.new ≡ out.old ++ hidden_from from vs.now) }
{
    let mut n = from;
    for _v in vs {
        out.push(NowPart::Hidden { constant: n })?;
        n = n.checked_add(1).ok_or(AllocError)?;
    }
    Ok(())
}

fn said_by_let(alloc: Global, ctx: &Context, v: &Variable) -> Result<NowParts, AllocError>
    ensures { IfOk result (λ ps. ps ≡ NowPart.Quantifier (next ctx.now) v.now.ty ∷ []) }
{
    let constant = next_number(ctx)?;
    let ty = v.ty.copy(alloc)?;
    one_part(alloc, NowPart::Quantifier { constant, ty })
}

fn said_by_assume(alloc: Global, s: &Statement) -> Result<NowParts, AllocError>
    ensures { IfOk result (λ ps. ps ≡ NowPart.Antecedent s.now ∷ []) }
{
    let s = s.copy(alloc)?;
    one_part(alloc, NowPart::Antecedent(s))
}

fn said_by_given(
    alloc: Global,
    ctx: &Context,
    vs: &Variables,
    s: &Statement,
) -> Result<NowParts, AllocError>
    ensures { IfOk result (λ ps. ps ≡ NowPart.Antecedent (there_are (next ctx.now) vs.now s.now) ∷ hidden_from (next ctx.now) vs.now) }
{
    let s = existential(alloc, ctx, vs, s)?;
    let mut out = one_part(alloc, NowPart::Antecedent(s))?;
    let n = next_number(ctx)?;
    hide(n, vs.items.as_slice(), &mut out)?;
    Ok(out)
}

fn said_by_thus(alloc: Global, s: &Statement) -> Result<NowParts, AllocError>
    ensures { IfOk result (λ ps. ps ≡ NowPart.Conjunct s.now ∷ []) }
{
    let s = s.copy(alloc)?;
    one_part(alloc, NowPart::Conjunct(s))
}

fn said_by_consider(alloc: Global, ctx: &Context, vs: &Variables) -> Result<NowParts, AllocError>
    ensures { IfOk result (λ ps. ps ≡ hidden_from (next ctx.now) vs.now) }
{
    let n = next_number(ctx)?;
    let mut out = NowParts::new(alloc);
    hide(n, vs.items.as_slice(), &mut out)?;
    Ok(out)
}

fn said_by_definition(
    alloc: Global,
    before: &[NowPart],
    ctx: &Context,
    d: &Definition,
) -> Result<NowParts, AllocError>
    ensures { IfOk result (λ ps. ps ≡ defined before.now (next ctx.now) d.now.term ∷ []) }
{
    let constant = next_number(ctx)?;
    let p = defined(alloc, before, constant, &d.term)?;
    one_part(alloc, p)
}

/// What the step adds to what a `now` states by the parts before.
pub fn parts_said(
    alloc: Global,
    before: &[NowPart],
    ctx: &Context,
    step: &ReadStep,
) -> Result<NowParts, AllocError>
    ensures { IfOk result (λ ps. ps ≡ parts_said before.now ctx.now step.now) }
{
    match step {
        ReadStep::Let(v) => said_by_let(alloc, ctx, v),
        ReadStep::Assume(s) => said_by_assume(alloc, s),
        ReadStep::Given(vs, s) => said_by_given(alloc, ctx, vs, s),
        ReadStep::Thus(s) => said_by_thus(alloc, s),
        ReadStep::Take(_) => Ok(NowParts::new(alloc)),
        ReadStep::Consider(vs, _) => said_by_consider(alloc, ctx, vs),
        ReadStep::Reconsider(d) => said_by_definition(alloc, before, ctx, d),
        ReadStep::Set(d) => said_by_definition(alloc, before, ctx, d),
        ReadStep::State(_) => Ok(NowParts::new(alloc)),
    }
}

/// Whether the step may stand directly within a `now`.
pub fn stands_in_now(step: &ReadStep) -> bool
    ensures { result ≡ stands_in_now step.now }
{
    match step {
        ReadStep::Take(_) => false,
        _ => true,
    }
}
