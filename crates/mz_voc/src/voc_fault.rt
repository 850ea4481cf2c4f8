//! Refusals of vocabularies.
ghost use Rattle.std.specs.Prelude.{◌≡◌, alloc_error};
ghost use Rattle.mz_voc.specs.declared.voc_fault.VocFault.TheVariants.{Memory};

use std::alloc::{AllocError, AllocFailed};
use thiserror::Error;

/// Why the bytes are no vocabulary (`docs/FAULTS.md`). Lines count from 1, and the first line at fault decides.
#[derive(Debug, Drop, Error)]
pub enum VocFault {
    /// The line is no entry, and not only by its priority.
    #[error("line {line}: no entry")]
    BadEntry { line: u64 },
    /// The line is an entry but for its priority.
    #[error("line {line}: bad priority")]
    BadPriority { line: u64 },
    /// The symbol stands on an earlier line too.
    #[error("line {line}: symbol repeated")]
    Repeated { line: u64 },
    /// There wasn't enough memory.
    #[error(transparent)]
    Memory(AllocError),
}

impl From<AllocError> for VocFault {
    ghost from_gives = { λ _ e. e ≡ Memory alloc_error };

    fn from(fault: AllocError) -> VocFault {
        VocFault::Memory(fault)
    }
}

impl<T: Drop> From<AllocFailed<T>> for VocFault {
    ghost from_gives = { λ _ e. e ≡ Memory alloc_error };

    fn from(_fault: AllocFailed<T>) -> VocFault {
        VocFault::Memory(AllocError)
    }
}
