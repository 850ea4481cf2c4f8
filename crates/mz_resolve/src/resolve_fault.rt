//! Why an expression isn't read.
ghost use Rattle.std.specs.Prelude.{◌≡◌};
ghost use Rattle.mz_resolve.specs.declared.resolve_fault.ResolveFault.TheVariants.{Memory};

use mz_names::refusal::Refusal;
use std::alloc::{AllocError, AllocFailed};

/// Why an expression isn't read: a refusal with its place, the first in the order of the reading; or there was no memory.
#[derive(Debug, Drop)]
pub enum ResolveFault {
    Refused(Refusal),
    Memory,
}

impl From<AllocError> for ResolveFault {
    ghost from_gives = { λ _ e. e ≡ Memory };

    fn from(_error: AllocError) -> Self {
        ResolveFault::Memory
    }
}

impl<T: Drop> From<AllocFailed<T>> for ResolveFault {
    ghost from_gives = { λ _ e. e ≡ Memory };

    fn from(_error: AllocFailed<T>) -> Self {
        ResolveFault::Memory
    }
}
