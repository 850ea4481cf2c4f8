//! Trees that can be copied.
ghost use Rattle.std.specs.Prelude.{◌≡◌, IfOk};

use std::alloc::{AllocError, Global};

/// A tree that can be copied where memory suffices.
pub trait Copied: Drop {
    /// An equal tree. Fails only for want of memory.
    fn copy(&self, alloc: Global) -> Result<Self, AllocError>
        ensures { IfOk result (λ t. t ≡ self.now) };
}
