//! Laws of verdicts, each the contract of a function that does nothing.
ghost use Rattle.mz_from.specs.Laws.{OneVerdictLaw};

/// One verdict at most is found at a `from`.
#[tactic(auto, using(crate::proofs::OneVerdict::one_verdict_law))]
pub fn one_verdict_law()
    ensures { OneVerdictLaw }
{}
