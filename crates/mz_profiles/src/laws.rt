//! Laws of verdicts under a profile, each the contract of a function that does nothing. A proof of a crate above cites
//! the lemma of `proofs/` that `docs/PROOFS.md` names beside the law.
ghost use Rattle.mz_profiles.specs.Laws.{OneVerdictUnderLaw, FirstProfileLaw, BothProfilesLaw, ClosedUnderLaw};

/// A problem has one verdict at most under a profile.
pub fn one_verdict_under_law()
    ensures { OneVerdictUnderLaw }
{}

/// Under the first profile it is the verdict by facts and universals alone.
pub fn first_profile_law()
    ensures { FirstProfileLaw }
{}

/// What is closed under the first profile is closed under the second.
pub fn both_profiles_law()
    ensures { BothProfilesLaw }
{}

/// What is closed under a profile by clauses without constants derives.
pub fn closed_under_law()
    ensures { ClosedUnderLaw }
{}
