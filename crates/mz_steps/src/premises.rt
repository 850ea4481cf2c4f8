//! What justifications are given.
ghost use Rattle.std.specs.Prelude.{◌≡◌, ◌++◌, IfOk};
ghost use Rattle.mz_steps.specs.Premises.{in_front, given};

use mz_context::context::Context;
use mz_core::statement::Statement;
use mz_core::statements::Statements;
use std::alloc::{AllocError, Global};

fn in_front(
    alloc: Global,
    s: &Option<Statement>,
    ss: Statements,
) -> Result<Option<Statements>, AllocError>
    ensures { IfOk result (λ o. o ≡ in_front s.now ss) }
{
    match s {
        None => Ok(None),
        Some(s) => {
            let mut rest = ss;
            let mut out = Statements::new(alloc);
            out.push(s.copy(alloc)?)?;
            out.items.append(&mut rest.items)?;
            Ok(Some(out))
        }
    }
}

/// What a justification is given: the cited statements, and where it is linked by `then` or `hence` the statement just
/// before in front of them. None where it is linked and there is no statement just before.
pub fn given(
    alloc: Global,
    linked: bool,
    ctx: &Context,
    cited: Statements,
) -> Result<Option<Statements>, AllocError>
    ensures { IfOk result (λ o. o ≡ given linked ctx.now cited) }
{
    if linked {
        return in_front(alloc, &ctx.previous, cited);
    }
    Ok(Some(cited))
}
