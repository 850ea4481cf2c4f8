//! Why texts can't be gathered.
ghost use Rattle.std.specs.Prelude.{◌≡◌};
ghost use Rattle.mz_corpus.specs.declared.gather_fault.GatherFault.TheVariants.{Memory};

use mz_base::name::Name;
use std::alloc::{AllocError, AllocFailed};

/// Why texts can't be gathered. The first that is met in the order of gathering decides.
#[derive(Clone, Copy, Debug)]
pub enum GatherFault {
    /// The shelf couldn't read. Its count of faults rose.
    Read,
    /// With the last text that was fetched all texts together have so many bytes, more than 16,777,216.
    TooMuchText { bytes: usize },
    /// More than 512 articles are asked for.
    TooManyArticles,
    /// The text of this name has more than 1,048,576 bytes.
    TooLong { name: Name },
    /// More than 512 vocabularies are asked for.
    TooManyVocabularies,
    /// Memory ran out.
    Memory,
}

impl From<AllocError> for GatherFault {
    ghost from_gives = { λ _ fault. fault ≡ Memory };

    fn from(_error: AllocError) -> GatherFault {
        GatherFault::Memory
    }
}

impl<T: Drop> From<AllocFailed<T>> for GatherFault {
    ghost from_gives = { λ _ fault. fault ≡ Memory };

    fn from(_error: AllocFailed<T>) -> GatherFault {
        GatherFault::Memory
    }
}
