//! Laws of clauses and facts, each the contract of a function that does nothing. A proof of a crate above cites
//! the lemma of `proofs/` that `docs/PROOFS.md` names beside the law.
ghost use Rattle.mz_ground.specs.Laws.{ClauseInstanceLaw, FactsLaw, ContradictionLaw};

/// An instance of a clause at closed terms derives from the clause.
pub fn clause_instance_law()
    ensures { ClauseInstanceLaw }
{}

/// Each fact derives from the disjunct's literals and the clauses.
pub fn facts_law()
    ensures { FactsLaw }
{}

/// Contradictory facts derive falsity.
pub fn contradiction_law()
    ensures { ContradictionLaw }
{}
