//! What holds of what is stated at loci, as the contract of a function that does nothing.
ghost use Rattle.mz_closing_laws.specs.Laws.{ClosingLaw};

/// What is stated at the loci is, over them, what stands under them.
pub fn closing_law()
    ensures { ClosingLaw }
{}
