//! What an environment part lets in is one value, as the contract of a function that does nothing.
ghost use Rattle.mz_env.specs.LetIn.{OneOutcomeLaw};

/// An environment part lets in one thing at most.
pub fn one_outcome_law()
    ensures { OneOutcomeLaw }
{}
