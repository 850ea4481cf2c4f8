//! Refusals of texts that can't be cut.
ghost use Rattle.std.specs.Prelude.{◌≡◌, alloc_error};
ghost use Rattle.mz_lex.specs.declared.lex_fault.LexFault.TheVariants.{Memory};

use mz_base::place::Place;
use std::alloc::{AllocError, AllocFailed};
use thiserror::Error;

/// Why a text can't be cut into tokens (`docs/FAULTS.md`). The first place in the text decides.
#[derive(Debug, Drop, Error)]
pub enum LexFault {
    /// No token begins at the byte.
    #[error("bad byte")]
    BadByte { place: Place },
    /// The token is the 200,001st.
    #[error("too many tokens")]
    TooManyTokens { place: Place },
    /// A comment begins with `::$C`.
    #[error("pragma")]
    Pragma { place: Place },
    /// There wasn't enough memory.
    #[error(transparent)]
    Memory(AllocError),
}

impl From<AllocError> for LexFault {
    ghost from_gives = { λ _ e. e ≡ Memory alloc_error };

    fn from(fault: AllocError) -> LexFault {
        LexFault::Memory(fault)
    }
}

impl<T: Drop> From<AllocFailed<T>> for LexFault {
    ghost from_gives = { λ _ e. e ≡ Memory alloc_error };

    fn from(_fault: AllocFailed<T>) -> LexFault {
        LexFault::Memory(AllocError)
    }
}
