//! Laws of verdicts, each the contract of a function that does nothing.
ghost use Rattle.mz_by.specs.Laws.{OneVerdictLaw};

/// A problem has one verdict at most.
pub fn one_verdict_law()
    ensures { OneVerdictLaw }
{}
