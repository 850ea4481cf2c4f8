//! Why a step doesn't lead on.
ghost use Rattle.std.specs.Prelude.{◌≡◌};
ghost use Rattle.mz_thesis.specs.declared.thesis_fault.ThesisFault.TheVariants.{Memory};

use std::alloc::{AllocError, AllocFailed};

/// Why there is no thesis after a step.
#[derive(Debug, Drop)]
pub enum ThesisFault {
    /// It fits at no number of unfoldings from 0 to 8.
    NoFit,
    /// There was no memory.
    Memory,
}

impl From<AllocError> for ThesisFault {
    ghost from_gives = { λ _ e. e ≡ Memory };

    fn from(_error: AllocError) -> Self {
        ThesisFault::Memory
    }
}

impl<T: Drop> From<AllocFailed<T>> for ThesisFault {
    ghost from_gives = { λ _ e. e ≡ Memory };

    fn from(_error: AllocFailed<T>) -> Self {
        ThesisFault::Memory
    }
}
