//! Refusals of words.
ghost use Rattle.std.specs.Prelude.{◌≡◌, ◌≢◌, ◌↔◌, alloc_error};
ghost use Rattle.clap.specs.Words.{kind_of};
ghost use Rattle.clap.specs.declared.error.kind.ErrorKind.TheVariants.{OutOfMemory};
ghost use Rattle.mz_words.specs.declared.word_fault.WordFault.TheVariants.{Memory, Usage};

use clap::error::ErrorKind;
use std::alloc::AllocError;
use thiserror::Error;

/// Why words give no order.
#[derive(Debug, Drop, Error)]
pub enum WordFault {
    /// They are a faulty command line.
    #[error("usage")]
    Usage,
    /// There wasn't enough memory.
    #[error(transparent)]
    Memory(AllocError),
}

impl From<AllocError> for WordFault {
    ghost from_gives = { λ _ fault. fault ≡ Memory alloc_error };

    fn from(error: AllocError) -> WordFault {
        WordFault::Memory(error)
    }
}

/// A faulty command line, but for want of memory.
impl From<clap::Error> for WordFault {
    ghost from_gives = { λ error fault. (fault ≡ Usage) ↔ (kind_of error ≢ OutOfMemory) };

    fn from(error: clap::Error) -> WordFault {
        match error.kind() {
            ErrorKind::OutOfMemory => WordFault::Memory(AllocError),
            _ => WordFault::Usage,
        }
    }
}
