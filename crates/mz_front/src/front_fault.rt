//! Why a text's items aren't read.
ghost use Rattle.std.specs.Prelude.{◌≡◌};
ghost use Rattle.mz_front.specs.declared.front_fault.FrontFault.TheVariants.{Memory};

use mz_core::fault::Fault;
use std::alloc::AllocError;
use thiserror::Error;

/// The one fault of a text that is refused before its items are read, or want of memory.
#[derive(Clone, Copy, Debug, Error)]
pub enum FrontFault {
    /// The fault.
    #[error("a fault in front of the items")]
    Refused(Fault),
    /// There wasn't enough memory.
    #[error("out of memory")]
    Memory,
}

impl From<AllocError> for FrontFault {
    ghost from_gives = { λ _ e. e ≡ Memory };

    fn from(_fault: AllocError) -> FrontFault {
        FrontFault::Memory
    }
}
