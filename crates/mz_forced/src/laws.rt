//! Laws of forced literals, each the contract of a function that does nothing. A proof of a crate above cites the
//! lemma of `proofs/` that `docs/PROOFS.md` names beside the law.
ghost use Rattle.mz_forced.specs.Laws.{ForcedLaw, NextLaw, OneNextLaw, OneForceLaw};

/// A literal that a formula forces derives from the formula, the disjunct and the clauses.
pub fn forced_law()
    ensures { ForcedLaw }
{}

/// What a disjunct is granted by, the disjunct with what is added is.
pub fn next_law()
    ensures { NextLaw }
{}

/// A disjunct has one next disjunct at most.
pub fn one_next_law()
    ensures { OneNextLaw }
{}

/// A formula has one force at most.
pub fn one_force_law()
    ensures { OneForceLaw }
{}
