//! Variables put into force, and the way back from their constants to indices.
ghost use Rattle.std.specs.Prelude.{◌≡◌, IfOk, OnOk};
ghost use Rattle.mz_context.specs.Changes.{with_constant};
ghost use Rattle.mz_names.specs.Closing.{constant_of, with_variables, for_all, there_are};

use crate::variable::{Variable, Variables};
use mz_context::constants::Constant;
use mz_context::context::Context;
use mz_core::abstraction::statement_over;
use mz_core::statement::Statement;
use mz_core::statement_forms::opposite;
use std::alloc::{AllocError, Global};

/// The variable as a constant.
pub fn constant_of(alloc: Global, v: &Variable) -> Result<Constant, AllocError>
    ensures { IfOk result (λ k. k ≡ constant_of v.now) }
{
    let name = v.name.copy(alloc)?;
    let ty = v.ty.copy(alloc)?;
    Ok(Constant {
        name,
        ty,
        equal: None,
    })
}

/// Puts a variable into force.
pub fn put_variable(alloc: Global, ctx: &mut Context, v: &Variable) -> Result<(), AllocError>
    ensures { OnOk result (ctx.new ≡ with_constant ctx.old (constant_of v.now)) }
{
    let k = constant_of(alloc, v)?;
    let _number = ctx.add(k)?;
    Ok(())
}

/// Puts the variables into force, one after another.
#[tactic(auto, using(crate::proofs::ClosingLemmas::put_rules))]
pub fn put_variables(alloc: Global, ctx: &mut Context, vs: &[Variable]) -> Result<(), AllocError>
    ensures { OnOk result (ctx.new ≡ with_variables ctx.old vs.now) }
{
    for v in vs {
        put_variable(alloc, ctx, v)?;
    }
    Ok(())
}

/// For all objects of the variables' types the statement, where the variables are the constants from n on.
pub fn for_all(
    alloc: Global,
    n: u32,
    vs: &[Variable],
    s: Statement,
) -> Result<Statement, AllocError>
    ensures { IfOk result (λ r. r ≡ for_all n vs.now s) }
{
    match vs.split_first() {
        None => Ok(s),
        Some((v, others)) => {
            let next = n.checked_add(1).ok_or(AllocError)?;
            let inner = for_all(alloc, next, others, s)?;
            let body = statement_over(alloc, &inner, n, 0)?;
            let ty = v.ty.copy(alloc)?;
            let r = Statement::each(alloc, ty, body)?;
            Ok(r)
        }
    }
}

/// For some objects of the variables' types the statement, where the variables are the constants from n on.
pub fn there_are(
    alloc: Global,
    n: u32,
    vs: &Variables,
    s: Statement,
) -> Result<Statement, AllocError>
    ensures { IfOk result (λ r. r ≡ there_are n vs.now s) }
{
    let denied = opposite(alloc, s)?;
    let all = for_all(alloc, n, vs.items.as_slice(), denied)?;
    let r = opposite(alloc, all)?;
    Ok(r)
}
