//! What holds of blocks of notations, as the contract of a function that does nothing.
ghost use Rattle.mz_notations.specs.Notes.{NotesBlock};
ghost use Rattle.mz_standing_laws.specs.Kinds.{GrowsLaw, KeepsLaw};
ghost use Rattle.mz_taken.specs.OneByOne.{OneLaw};

/// The clauses only grow, where an article stood soundly it does behind, and there is one outcome at most.
pub fn notation_law()
    ensures grows { GrowsLaw NotesBlock }
    ensures keeps { KeepsLaw NotesBlock }
    ensures one { OneLaw NotesBlock }
{}
