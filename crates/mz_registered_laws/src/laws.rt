//! What holds of blocks of registrations, as contracts of functions that do nothing.
ghost use Rattle.mz_standing_laws.specs.Kinds.{GrowsLaw, KeepsLaw};
ghost use Rattle.mz_taken.specs.OneByOne.{OneLaw};
ghost use Rattle.mz_registered.specs.Blocks.{TakesBlock};

/// What comes of a block is determined.
pub fn one_registrations_law()
    ensures { OneLaw TakesBlock }
{}

/// The clauses only grow in it, and an article that stands soundly does behind it.
pub fn keeps_registrations_law()
    ensures grows { GrowsLaw TakesBlock }
    ensures keeps { KeepsLaw TakesBlock }
{}
