//! Laws of blocks, each the contract of a function that does nothing. A proof of a crate above cites the lemma that is
//! named here.
ghost use Rattle.mz_block_laws.specs.BlockLaws.{StepPassesLaw, StepOrderLaw, NoStepLaw, MoreStepsLaw, StatedPassesLaw, HeldPassesLaw, ProofLaw, NowLaw, CaseLaw, SentenceLaw, SentenceStandsLaw, EqualitiesLaw, DisjunctionStandsLaw};
ghost use Rattle.mz_block_laws.specs.Met.{JustifiedLaw, GivenLaw};

/// One passes soundly over a step whose obligation is met, and behind it the context is in order.
pub fn step_passes_law()
    ensures passes { StepPassesLaw }
    ensures order { StepOrderLaw }
{}

/// So one does over several, one after another, and to where something is stated that derives; and what derives may be held
/// besides.
pub fn more_steps_law()
    ensures none { NoStepLaw }
    ensures more { MoreStepsLaw }
    ensures stated { StatedPassesLaw }
    ensures held { HeldPassesLaw }
{}

/// A proof proves its thesis, a `now` what it states, and a case what derives from what it supposes.
pub fn whole_block_law()
    ensures proof { ProofLaw }
    ensures now { NowLaw }
    ensures case { CaseLaw }
{}

/// A sentence derives where its formula does at constants.
pub fn sentence_law()
    ensures derives { SentenceLaw }
    ensures stands { SentenceStandsLaw }
{}

/// Of equations one after another the first side is equal to the last; and a disjunction stands where its members do.
pub fn equalities_law()
    ensures equal { EqualitiesLaw }
    ensures disjunction { DisjunctionStandsLaw }
{}

/// A statement derives where its obligation is met, and what a justification is given derives.
pub fn justified_law()
    ensures statement { JustifiedLaw }
    ensures given { GivenLaw }
{}
