//! What holds of schemes, as the contract of a function that does nothing.
ghost use Rattle.mz_scheme_items.specs.StatesScheme.{StatesScheme};
ghost use Rattle.mz_standing_laws.specs.Kinds.{GrowsLaw, KeepsLaw};
ghost use Rattle.mz_taken.specs.OneByOne.{OneLaw};

/// The clauses only grow, where an article stood soundly it does behind, and there is one outcome at most.
pub fn scheme_law()
    ensures grows { GrowsLaw StatesScheme }
    ensures keeps { KeepsLaw StatesScheme }
    ensures one { OneLaw StatesScheme }
{}
