//! Laws of unfoldings and steps, each the contract of a function that does nothing.
ghost use Rattle.mz_thesis.specs.Laws.{OneUnfoldingLaw, OneThesisLaw};

/// An atom or an equation unfolds to one statement at most.
#[tactic(auto, using(crate::proofs::OneValue::one_unfolding_law))]
pub fn one_unfolding_law()
    ensures { OneUnfoldingLaw }
{}

/// A step leads to one thesis at most.
#[tactic(auto, using(crate::proofs::OneValue::one_thesis_law))]
pub fn one_thesis_law()
    ensures { OneThesisLaw }
{}
