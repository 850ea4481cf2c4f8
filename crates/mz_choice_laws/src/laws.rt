//! Laws of known constants and of values that fit, each the contract of a function that does nothing.
ghost use Rattle.mz_choice_laws.specs.KnownLaws.{KnownChainLaw, KnownMeaningLaw, SuitedLaw};
ghost use Rattle.mz_choice_laws.specs.LociLaw.{LociLaw};

/// The chain of a term of known constants, and what a symbol applied to such terms reads to, have known constants alone and
/// no loose index, where nothing in the environment has a constant or a loose index; and what it reads to is what was wanted.
pub fn known_law()
    ensures chain { KnownChainLaw }
    ensures meaning { KnownMeaningLaw }
    ensures suited { SuitedLaw }
{}

/// Values that fit loci are of their types: the guard of each locus' type, at the values before it, derives at its value from
/// the clauses and from what is known of the constants.
pub fn loci_law()
    ensures { LociLaw }
{}
