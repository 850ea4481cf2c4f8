//! Laws of statements without a proof within them, each the contract of a function that does nothing.
ghost use Rattle.mz_introduction_laws.specs.Laws.{OneIntroductionLaw, OneCompactLaw, OneAheadLaw, OneSidesJustifiedLaw};

/// What `consider`, `reconsider` and `set` lead to is determined.
pub fn one_introduction_law()
    ensures { OneIntroductionLaw }
{}

/// What a compact statement is read to, and what the article has left behind it, is determined; and so is whether what can be made
/// ahead of a side that isn't read keeps the limits, and what the justifications of its further sides give.
pub fn one_compact_law()
    ensures compact { OneCompactLaw }
    ensures ahead { OneAheadLaw }
    ensures sides { OneSidesJustifiedLaw }
{}
