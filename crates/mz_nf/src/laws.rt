//! Laws of the disjuncts of a problem, each the contract of a function that does nothing. A proof of a
// crate above cites the lemma of `proofs/` that `docs/PROOFS.md` names beside the law.
ghost use Rattle.mz_nf.specs.Laws.{OneListLaw, CountLaw, SplittingLaw};

/// Each problem has one list of disjuncts, and no other.
pub fn one_list_law()
    ensures { OneListLaw }
{}

/// The count of a problem is the length of its list, or 1,000,000,000 where that is more.
pub fn count_law()
    ensures { CountLaw }
{}

/// Where each disjunct of a problem, together with clauses, gives falsity, the conclusion derives from
/// the premises and the clauses.
pub fn splitting_law()
    ensures { SplittingLaw }
{}
