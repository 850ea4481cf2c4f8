//! What fits in a context of an environment, and the chain of a term there.
ghost use Rattle.std.specs.Prelude.{◌↔◌, IfOk, IsTrue};
ghost use Rattle.mz_fits.specs.Fits.{TypeFits};
ghost use Rattle.mz_types.specs.Known.{typing};
ghost use Rattle.mz_types.specs.Chain.{IsChain};

use crate::chain::chain_by;
use crate::known::typing;
use crate::radices::Radixes;
use mz_context::context::Context;
use mz_core::soft_type::SoftType;
use mz_environment::environment::Environment;
use mz_fits::fits::type_fits;
use mz_logic::term::Term;
use std::alloc::{AllocError, Global};

/// Whether each literal of the type's guard at the term fits in the context.
pub fn fits(
    alloc: Global,
    env: &Environment,
    ctx: &Context,
    t: &Term,
    ty: &SoftType,
) -> Result<bool, AllocError>
    ensures { IfOk result (λ b. IsTrue b ↔ TypeFits (typing env.now ctx.now) ctx.now.constants t.now ty.now) }
{
    match typing(alloc, env, ctx)? {
        Some(clauses) => {
            let fit = type_fits(alloc, clauses.as_slice(), &ctx.constants, t, ty)?;
            Ok(fit)
        }
        None => {
            let fit = type_fits(alloc, env.typing.as_slice(), &ctx.constants, t, ty)?;
            Ok(fit)
        }
    }
}

/// The chain of the term.
pub fn chain(
    alloc: Global,
    env: &Environment,
    ctx: &Context,
    t: &Term,
) -> Result<Radixes, AllocError>
    ensures { IfOk result (λ rs. IsChain (typing env.now ctx.now) env.now ctx.now t.now rs) }
{
    match typing(alloc, env, ctx)? {
        Some(clauses) => {
            let rs = chain_by(alloc, clauses.as_slice(), env, ctx, t)?;
            Ok(rs)
        }
        None => {
            let rs = chain_by(alloc, env.typing.as_slice(), env, ctx, t)?;
            Ok(rs)
        }
    }
}
