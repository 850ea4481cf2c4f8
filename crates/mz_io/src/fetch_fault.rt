//! Why a text is not there.
ghost use Rattle.mz_io.specs.declared.fetch_fault.FetchFault.TheVariants.{Memory};
ghost use Rattle.std.specs.Prelude.{◌≡◌};

use std::alloc::AllocError;

/// Why a call of a shelf gave neither a text nor the answer that there is none.
#[derive(Clone, Copy, Debug, PartialEq, Eq)]
pub enum FetchFault {
    /// The shelf could not read. Its count of faults rose in this call.
    Failed,
    /// The text has more than 1,048,576 bytes.
    TooLong,
    /// Memory ran out.
    Memory,
}

impl From<AllocError> for FetchFault {
    ghost from_gives = { λ _ fault. fault ≡ Memory };

    fn from(_error: AllocError) -> FetchFault {
        FetchFault::Memory
    }
}
