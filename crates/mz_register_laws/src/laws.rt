//! What holds of blocks of registrations, as the contract of a function that does nothing.
ghost use Rattle.mz_register.specs.Registers.{Registers};
ghost use Rattle.mz_standing_laws.specs.Kinds.{GrowsLaw, KeepsLaw};
ghost use Rattle.mz_taken.specs.OneByOne.{OneLaw};

/// The clauses only grow, where an article stood soundly it does behind, and there is one outcome at most.
pub fn register_law()
    ensures grows { GrowsLaw Registers }
    ensures keeps { KeepsLaw Registers }
    ensures one { OneLaw Registers }
{}
