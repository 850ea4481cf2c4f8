//! Why a reasoning isn't taken.
ghost use Rattle.std.specs.Prelude.{◌≡◌};
ghost use Rattle.mz_names.specs.declared.refusal.Refusal.TheVariants.{TooLarge};
ghost use Rattle.mz_justified.specs.declared.proof_fault.ProofRefusal.TheVariants.{Resolve};
ghost use Rattle.mz_justified.specs.declared.proof_fault.ProofFault.TheVariants.{Refused, Memory};

use mz_base::place::Place;
use mz_names::refusal::Refusal;
use std::alloc::{AllocError, AllocFailed};

/// Why a reasoning isn't taken, and where: a step that doesn't fit, or that has to follow a statement and doesn't, at its first
/// token; an `end` where something is left of the thesis; a reference that cites nothing; an expression that isn't read; a
/// justification by which the article has too many obligations; a form that isn't built yet, at its first token.
#[derive(Clone, Copy, Debug, PartialEq, Eq)]
pub enum ProofRefusal {
    StepNoFit(Place),
    ThesisLeft(Place),
    UnknownLabel(Place),
    Resolve(Refusal),
    TooManyObligations(Place),
    NotBuilt(Place),
}

/// Why a reasoning isn't taken: a refusal with its place, the first in the order of the text; or there was no memory.
#[derive(Debug, Drop)]
pub enum ProofFault {
    Refused(ProofRefusal),
    Memory,
}

impl ProofFault {
    /// Something that a step makes is beyond the limits of an expression: `TooLarge` at the step's first token.
    pub fn too_large(first: Place) -> ProofFault
        ensures { result ≡ Refused (Resolve (TooLarge first)) }
    {
        ProofFault::Refused(ProofRefusal::Resolve(Refusal::TooLarge(first)))
    }
}

impl From<AllocError> for ProofFault {
    ghost from_gives = { λ _ e. e ≡ Memory };

    fn from(_error: AllocError) -> Self {
        ProofFault::Memory
    }
}

impl<T: Drop> From<AllocFailed<T>> for ProofFault {
    ghost from_gives = { λ _ e. e ≡ Memory };

    fn from(_error: AllocFailed<T>) -> Self {
        ProofFault::Memory
    }
}
