//! What holds of structures, as the contract of a function that does nothing.
ghost use Rattle.std.specs.Prelude.{ℕ};
ghost use Rattle.mz_standing_laws.specs.Kinds.{GrowsLaw};
ghost use Rattle.mz_structure_laws.specs.Headings.{TakesStructure, StructureKeepsLaw};
ghost use Rattle.mz_taken.specs.OneByOne.{OneLaw};

/// The clauses only grow, where an article stood soundly in its block it does behind, and there is one outcome at most.
pub fn structure_law()
    ensures grows { (least : ℕ) → GrowsLaw (TakesStructure least) }
    ensures keeps { StructureKeepsLaw }
    ensures one { (least : ℕ) → OneLaw (TakesStructure least) }
{}
