//! Whether steps may stand where they stand.
ghost use Rattle.std.specs.Prelude.{◌≡◌};
ghost use Rattle.mz_walk.specs.Performing.{is_linked, is_now};

use mz_context::context::Context;
use mz_steps::block::Block;

/// Whether a statement just before is there where one is wanted.
pub fn is_linked(linked: bool, ctx: &Context) -> bool
    ensures { result ≡ is_linked linked ctx.now.previous }
{
    match &ctx.previous {
        Some(_) => true,
        None => !linked,
    }
}

/// Whether the block is a `now`.
pub fn is_now(block: &Block) -> bool
    ensures { result ≡ is_now block.now }
{
    match block {
        Block::Proof => false,
        Block::Now(_) => true,
    }
}
