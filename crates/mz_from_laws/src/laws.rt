//! The law of `from`, the contract of a function that does nothing.
ghost use Rattle.mz_from_laws.specs.Laws.{FromLaw};

/// Where the verdict is that a scheme fits, the statement derives from the scheme's sequent and what is cited.
#[tactic(auto, using(crate::proofs::FromProofs::from_law))]
pub fn from_law()
    ensures { FromLaw }
{}
