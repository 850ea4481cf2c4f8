//! Refusals of symbol tables.
ghost use Rattle.std.specs.Prelude.{◌≡◌, alloc_error};
ghost use Rattle.mz_lex.specs.declared.table_fault.TableFault.TheVariants.{Memory};

use mz_base::place::Place;
use mz_voc::voc_fault::VocFault;
use std::alloc::{AllocError, AllocFailed};
use thiserror::Error;

/// Why an environment part has no symbol table (`docs/FAULTS.md`). The first name under `vocabularies` that fails
/// decides, and for one name the first of these.
#[derive(Debug, Drop, Error)]
pub enum TableFault {
    /// There is no such vocabulary.
    #[error("vocabulary missing")]
    Absent { place: Place },
    /// The vocabulary has a line at fault.
    #[error("bad vocabulary: {fault}")]
    Bad { place: Place, fault: VocFault },
    /// A symbol of the vocabulary stood in an earlier one with another kind.
    #[error("symbol of two kinds")]
    TwoKinds { place: Place },
    /// With the vocabulary there are more than 4,096 symbols.
    #[error("too many symbols")]
    TooManySymbols { place: Place },
    /// There wasn't enough memory.
    #[error(transparent)]
    Memory(AllocError),
}

impl From<AllocError> for TableFault {
    ghost from_gives = { λ _ e. e ≡ Memory alloc_error };

    fn from(fault: AllocError) -> TableFault {
        TableFault::Memory(fault)
    }
}

impl<T: Drop> From<AllocFailed<T>> for TableFault {
    ghost from_gives = { λ _ e. e ≡ Memory alloc_error };

    fn from(_fault: AllocFailed<T>) -> TableFault {
        TableFault::Memory(AllocError)
    }
}
