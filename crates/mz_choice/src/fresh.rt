//! Fresh constants.
ghost use Rattle.std.specs.Prelude.{◌≡◌, IfOk};
ghost use Rattle.mz_context.specs.Context.{next};
ghost use Rattle.mz_choice.specs.Fresh.{fresh, keeping};

use mz_base::text::Text;
use mz_context::constants::Constant;
use mz_context::context::Context;
use mz_core::soft_type::SoftType;
use std::alloc::{AllocError, Global};

/// A constant of the type, without a name and without an equal term.
pub fn fresh(alloc: Global, ty: SoftType) -> Constant
    ensures { result ≡ fresh ty }
{
    Constant {
        name: Text::new(alloc),
        ty,
        equal: None,
    }
}

/// The number of the next constant. More than 4,294,967,295 are as no memory.
pub fn next_number(ctx: &Context) -> Result<u32, AllocError>
    ensures { IfOk result (λ n. n ≡ next ctx.now) }
{
    let count = ctx.constants.items.len();
    if count >= 4294967295 {
        return Err(AllocError);
    }
    Ok(count as u32 + 1)
}

/// Keeps so many of the constants.
pub fn keep(ctx: &mut Context, count: usize)
    ensures { ctx.new ≡ keeping count ctx.old }
{
    ctx.constants.items.truncate(count);
}
