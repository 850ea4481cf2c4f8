//! Refusals of environment parts.
ghost use Rattle.std.specs.Prelude.{◌≡◌, alloc_error};
ghost use Rattle.mz_lex.specs.declared.head_fault.HeadFault.TheVariants.{Memory};
ghost use Rattle.mz_lex.specs.HeadFault.{head_fault_of};

use crate::lex_fault::LexFault;
use mz_base::place::Place;
use std::alloc::{AllocError, AllocFailed};
use thiserror::Error;

/// Why a text has no environment part (`docs/FAULTS.md`). A fault of the cut comes before one of the grammar.
#[derive(Debug, Drop, Error)]
pub enum HeadFault {
    /// No token begins at the byte.
    #[error("bad byte")]
    BadByte { place: Place },
    /// The token is the 200,001st.
    #[error("too many tokens")]
    TooManyTokens { place: Place },
    /// A comment begins with `::$C`.
    #[error("pragma")]
    Pragma { place: Place },
    /// The tokens up to the one there begin no environment part.
    #[error("unexpected token")]
    Unexpected { place: Place },
    /// The text ends within its environment part, just before the place.
    #[error("ends early")]
    EndsEarly { place: Place },
    /// A directive's word that isn't allowed yet: `equalities` or `expansions`.
    #[error("directive of profile 2")]
    Profile2 { place: Place },
    /// There wasn't enough memory.
    #[error(transparent)]
    Memory(AllocError),
}

impl From<LexFault> for HeadFault {
    ghost from_gives = { λ fault e. e ≡ head_fault_of fault };

    fn from(fault: LexFault) -> HeadFault {
        match fault {
            LexFault::BadByte { place } => HeadFault::BadByte { place },
            LexFault::TooManyTokens { place } => HeadFault::TooManyTokens { place },
            LexFault::Pragma { place } => HeadFault::Pragma { place },
            LexFault::Memory(fault) => HeadFault::Memory(fault),
        }
    }
}

impl From<AllocError> for HeadFault {
    ghost from_gives = { λ _ e. e ≡ Memory alloc_error };

    fn from(fault: AllocError) -> HeadFault {
        HeadFault::Memory(fault)
    }
}

impl<T: Drop> From<AllocFailed<T>> for HeadFault {
    ghost from_gives = { λ _ e. e ≡ Memory alloc_error };

    fn from(_fault: AllocFailed<T>) -> HeadFault {
        HeadFault::Memory(AllocError)
    }
}
