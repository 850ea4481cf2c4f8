//! Copies of two or three trees at once, so that none is held while another one is copied.
ghost use Rattle.std.specs.Prelude.{◌≡◌, IfOk};

use crate::tree::Copied;
use std::alloc::{AllocError, Global};

/// Equal trees. Fails only for want of memory.
pub fn copied_pair<A: Copied, B: Copied>(
    alloc: Global,
    first: &A,
    second: &B,
) -> Result<(A, B), AllocError>
    ensures { IfOk result (λ p. (p.0 ≡ first.now) × (p.1 ≡ second.now)) }
{
    let first = first.copy(alloc)?;
    let second = second.copy(alloc)?;
    Ok((first, second))
}

/// Equal trees. Fails only for want of memory.
pub fn copied_triple<A: Copied, B: Copied, C: Copied>(
    alloc: Global,
    first: &A,
    second: &B,
    third: &C,
) -> Result<(A, B, C), AllocError>
    ensures { IfOk result (λ p. (p.0 ≡ first.now) × (p.1 ≡ second.now) × (p.2 ≡ third.now)) }
{
    let first = first.copy(alloc)?;
    let (second, third) = copied_pair(alloc, second, third)?;
    Ok((first, second, third))
}
