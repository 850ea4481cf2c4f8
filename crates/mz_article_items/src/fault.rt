//! Faults of readings as those of reasonings.
ghost use Rattle.std.specs.Prelude.{◌≡◌};
ghost use Rattle.mz_walk.specs.Answers.{resolved};

use mz_justified::proof_fault::{ProofFault, ProofRefusal};
use mz_resolve::resolve_fault::ResolveFault;

/// The fault of a reading as one of a reasoning.
pub fn resolved(f: ResolveFault) -> ProofFault
    ensures { result ≡ resolved f }
{
    match f {
        ResolveFault::Refused(r) => ProofFault::Refused(ProofRefusal::Resolve(r)),
        ResolveFault::Memory => ProofFault::Memory,
    }
}
