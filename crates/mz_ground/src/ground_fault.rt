//! Why there is no ground part.
ghost use Rattle.std.specs.Prelude.{◌≡◌};
ghost use Rattle.mz_ground.specs.declared.ground_fault.GroundFault.TheVariants.{Memory};

use std::alloc::{AllocError, AllocFailed};

/// Why a ground part isn't made.
#[derive(Debug, Drop)]
pub enum GroundFault {
    /// A layer has more than 4,096 terms.
    TooManyTerms,
    /// A layer has no more than 4,096 terms and more than 16,384 atoms.
    TooManyAtoms,
    /// There was no memory.
    Memory,
}

impl From<AllocError> for GroundFault {
    ghost from_gives = { λ _ e. e ≡ Memory };

    fn from(_error: AllocError) -> Self {
        GroundFault::Memory
    }
}

impl<T: Drop> From<AllocFailed<T>> for GroundFault {
    ghost from_gives = { λ _ e. e ≡ Memory };

    fn from(_error: AllocFailed<T>) -> Self {
        GroundFault::Memory
    }
}
