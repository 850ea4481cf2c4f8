//! Laws of what fits, each the contract of a function that does nothing.
ghost use Rattle.mz_fits.specs.Laws.{LiteralLaw, FitsLaw, EqualLaw, MatchLaw, OneMatchLaw, OneAcceptedLaw};

/// A literal that fits derives from the clauses and what is known of the constants.
pub fn literal_law()
    ensures { LiteralLaw }
{}

/// Each formula of a guard that fits derives so.
pub fn fits_law()
    ensures { FitsLaw }
{}

/// Terms that are the same or equal by the facts derive equal.
pub fn equal_law()
    ensures { EqualLaw }
{}

/// What is fixed behind a match is determined.
pub fn one_match_law()
    ensures { OneMatchLaw }
{}

/// The values that are accepted are determined.
pub fn one_accepted_law()
    ensures { OneAcceptedLaw }
{}

/// Where formal terms over loci match closed terms, they derive equal to these, with what the loci are fixed to, and this
/// is closed.
pub fn match_law()
    ensures { MatchLaw }
{}
