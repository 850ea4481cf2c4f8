//! One value at most, as the contract of a function that does nothing.
ghost use Rattle.mz_front.specs.Laws.{OneFrontLaw};

/// A text is one thing at most before its items are read.
pub fn one_front_law()
    ensures { OneFrontLaw }
{}
