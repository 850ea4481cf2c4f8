//! Laws of refutation, each the contract of a function that does nothing. A proof of a crate above cites the
//! lemma of `proofs/` that `docs/PROOFS.md` names beside the law.
ghost use Rattle.mz_refute.specs.Laws.{RefutationLaw, ClosedLaw};

/// The negation of what is refuted derives from the disjunct and the clauses.
pub fn refutation_law()
    ensures { RefutationLaw }
{}

/// Falsity derives from a closed disjunct and the clauses.
pub fn closed_law()
    ensures { ClosedLaw }
{}
