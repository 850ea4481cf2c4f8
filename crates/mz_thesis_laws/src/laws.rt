//! Laws of steps, each the contract of a function that does nothing. A proof of a crate above cites the lemma that is
//! named here.
ghost use Rattle.mz_thesis_laws.specs.RowLaws.{LetLaw, AssumeLaw, ThusLaw, TakeLaw, CasesLaw, ConsiderLaw, DefineLaw};
ghost use Rattle.mz_thesis_laws.specs.StepLaws.{UnfoldsLaw, StepLaw};

/// The rows of the table that change the thesis.
#[tactic(auto, using(crate::proofs::RowProofs::cases_law))]
pub fn row_law()
    ensures let_ { LetLaw }
    ensures assume { AssumeLaw }
    ensures thus { ThusLaw }
    ensures take { TakeLaw }
    ensures cases { CasesLaw }
{}

/// The rows that name an object: `consider`, and `reconsider` and `set`.
pub fn constant_law()
    ensures consider { ConsiderLaw }
    ensures define { DefineLaw }
{}

/// What an atom or an equation unfolds to is as much as it.
#[tactic(auto, using(crate::proofs::UnfoldProofs::unfolds_law))]
pub fn unfolds_law()
    ensures { UnfoldsLaw }
{}

/// A step that fits, after some unfoldings or none, is sound.
#[tactic(auto, using(crate::proofs::StepProofs::step_law))]
pub fn step_law()
    ensures { StepLaw }
{}
