//! Laws of justifications, each the contract of a function that does nothing.
ghost use Rattle.mz_justified_laws.specs.Laws.{OneGroundLaw, OneOwedLaw, OneJustificationLaw};

/// What a justification gives, its obligation, and what the article has left behind it, is determined.
pub fn one_justification_law()
    ensures ground { OneGroundLaw }
    ensures owed { OneOwedLaw }
    ensures justification { OneJustificationLaw }
{}
