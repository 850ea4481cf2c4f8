//! Types of the language.
ghost use Rattle.std.specs.Prelude.{◌≡◌, ◌↔◌, IsTrue, IfOk};

use crate::adjectives::Adjectives;
use crate::radix::Radix;
use std::alloc::{AllocError, Global};

/// A type: adjectives, in the order in which they are written, and a radix.
#[derive(Drop)]
pub struct SoftType {
    pub adjectives: Adjectives,
    pub radix: Radix,
}

impl SoftType {
    /// An equal type.
    pub fn copy(&self, alloc: Global) -> Result<SoftType, AllocError>
        ensures { IfOk result (λ t. t ≡ self.now) }
    {
        let adjectives = self.adjectives.copy(alloc)?;
        let radix = self.radix.copy(alloc)?;
        Ok(SoftType { adjectives, radix })
    }

    /// Whether the types are equal, the order of adjectives included.
    pub fn equals(&self, other: &SoftType) -> bool
        ensures { IsTrue result ↔ (self.now ≡ other.now) }
    {
        self.adjectives.equals(&other.adjectives) && self.radix.equals(&other.radix)
    }
}
