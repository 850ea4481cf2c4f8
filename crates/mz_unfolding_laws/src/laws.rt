//! The law of unfoldings, as the contract of a function that does nothing.
ghost use Rattle.mz_unfolding_laws.specs.UnfoldingLaw.{UnfoldingLaw};

/// What an item unfolds is as much as its definiens, by what the item grants or owes.
pub fn unfolding_law()
    ensures { UnfoldingLaw }
{}
