//! Why an item isn't taken.
ghost use Rattle.std.specs.Prelude.{◌≡◌};
ghost use Rattle.mz_taken.specs.Answers.{of_reasoning, of_reading};
ghost use Rattle.mz_taken.specs.declared.item_fault.ItemFault.TheVariants.{Memory};

use mz_base::place::Place;
use mz_justified::proof_fault::{ProofFault, ProofRefusal};
use mz_resolve::resolve_fault::ResolveFault;
use std::alloc::{AllocError, AllocFailed};

/// Why an item isn't taken, and where: a reasoning or an expression of it isn't taken, or its form isn't built yet; behind a heading a
/// correctness condition that is owed isn't written, at the token behind the heading's last condition or property; one is written
/// that isn't owed, at its word; the loci of a heading aren't those that its form wants, at its first token; a selector of a structure
/// stands twice, at the second one; an ancestor has a field that the structure hasn't, at the ancestor. Conditions are numbered from 1,
/// in the order existence, uniqueness, coherence, compatibility, consistency, correctness; a property that its symbol can't have has the
/// number 7.
#[derive(Clone, Copy, Debug, PartialEq, Eq)]
pub enum ItemRefusal {
    Proof(ProofRefusal),
    ConditionMissing { place: Place, condition: u64 },
    ConditionStray { place: Place, condition: u64 },
    BadLoci(Place),
    SelectorRepeated(Place),
    AncestorUnfit(Place),
}

/// Why an item isn't taken: a refusal with its place, the first in the order of the text; or there was no memory.
#[derive(Debug, Drop)]
pub enum ItemFault {
    Refused(ItemRefusal),
    Memory,
}

impl From<AllocError> for ItemFault {
    ghost from_gives = { λ _ e. e ≡ Memory };

    fn from(_error: AllocError) -> Self {
        ItemFault::Memory
    }
}

impl<T: Drop> From<AllocFailed<T>> for ItemFault {
    ghost from_gives = { λ _ e. e ≡ Memory };

    fn from(_error: AllocFailed<T>) -> Self {
        ItemFault::Memory
    }
}

/// The fault of a reasoning as one of an item.
pub fn of_reasoning(f: ProofFault) -> ItemFault
    ensures { result ≡ of_reasoning f }
{
    match f {
        ProofFault::Refused(r) => ItemFault::Refused(ItemRefusal::Proof(r)),
        ProofFault::Memory => ItemFault::Memory,
    }
}

/// The fault of a reading as one of an item.
pub fn of_reading(f: ResolveFault) -> ItemFault
    ensures { result ≡ of_reading f }
{
    match f {
        ResolveFault::Refused(r) => ItemFault::Refused(ItemRefusal::Proof(ProofRefusal::Resolve(
            r,
        ))),
        ResolveFault::Memory => ItemFault::Memory,
    }
}
