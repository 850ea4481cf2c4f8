//! Laws of steps in contexts, each the contract of a function that does nothing. A proof of a crate above cites the lemma
//! that is named here.
ghost use Rattle.mz_steps_laws.specs.StepLaws.{ThereAreLaw, StepInProofLaw, ThesisStandsLaw, StatedLaw};
ghost use Rattle.mz_steps_laws.specs.NowLaws.{StepInNowLaw};
ghost use Rattle.mz_steps_laws.specs.BlockLaws.{StepGrowsLaw, MoreGrewLaw, ProofGrewLaw, NowGrewLaw, BlockLaw};
ghost use Rattle.mz_steps_laws.specs.HiddenLaws.{StepSaidLaw, MoreSaidLaw, HiddenLaw, LackingLaw};

/// `consider` with several variables is sound.
pub fn there_are_law()
    ensures { ThereAreLaw }
{}

/// A step of a proof is sound.
pub fn step_in_proof_law()
    ensures { StepInProofLaw }
{}

/// What is left of a thesis is in force, and has no free index.
pub fn thesis_stands_law()
    ensures { ThesisStandsLaw }
{}

/// What a context says derives from what it said and from what was stated in it.
pub fn stated_law()
    ensures { StatedLaw }
{}

/// A step of a `now` is sound.
pub fn step_in_now_law()
    ensures { StepInNowLaw }
{}

/// No step that may stand in a `now` brings a hidden constant into what is stated, and what lacks the last constants is in
/// force without them.
pub fn hidden_law()
    ensures step { StepSaidLaw }
    ensures more { MoreSaidLaw }
    ensures hidden { HiddenLaw }
    ensures lacking { LackingLaw }
{}

/// Steps only add to the lists of a context, and behind a block it is as it was.
pub fn block_law()
    ensures step { StepGrowsLaw }
    ensures more { MoreGrewLaw }
    ensures proof { ProofGrewLaw }
    ensures now { NowGrewLaw }
    ensures block { BlockLaw }
{}
