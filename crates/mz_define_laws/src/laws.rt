//! What holds of blocks of definitions and of notations, as the contract of a function that does nothing.
ghost use Rattle.mz_define.specs.Defines.{Defines, Notes};
ghost use Rattle.mz_standing_laws.specs.Kinds.{GrowsLaw, KeepsLaw};
ghost use Rattle.mz_taken.specs.OneByOne.{OneLaw};

/// The clauses only grow, where an article stood soundly it does behind, and there is one outcome at most.
pub fn define_law()
    ensures grows_of_definitions { GrowsLaw Defines }
    ensures keeps_of_definitions { KeepsLaw Defines }
    ensures one_of_definitions { OneLaw Defines }
    ensures grows_of_notations { GrowsLaw Notes }
    ensures keeps_of_notations { KeepsLaw Notes }
    ensures one_of_notations { OneLaw Notes }
{}
