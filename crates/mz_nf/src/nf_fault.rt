//! Why a problem has no list of disjuncts.
ghost use Rattle.mz_nf.specs.declared.nf_fault.NfFault.TheVariants.{Memory};
ghost use Rattle.std.specs.Prelude.{◌≡◌};

use std::alloc::AllocError;

/// Why a problem was not split.
#[derive(Clone, Copy, Debug, PartialEq, Eq)]
pub enum NfFault {
    /// The problem has more than 1,024 disjuncts: so many, or 1,000,000,000 where that is more.
    TooManyDisjuncts { count: u64 },
    /// Memory ran out, or the numbers of new constants did.
    Memory,
}

impl From<AllocError> for NfFault {
    ghost from_gives = { λ _ fault. fault ≡ Memory };

    fn from(_error: AllocError) -> NfFault {
        NfFault::Memory
    }
}
