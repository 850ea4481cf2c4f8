//! One outcome at most, as the contract of a function that does nothing.
ghost use Rattle.mz_axioms.specs.Checker.{HasOneOutcome};
ghost use Rattle.mz_article.specs.Outcome.{IsOutcome};

/// An article has one outcome at most.
pub fn one_outcome_law()
    ensures { HasOneOutcome IsOutcome }
{}
