//! Laws of libraries, each the contract of a function that does nothing.
ghost use Rattle.mz_axioms.specs.Library.{AddedLaw, BuiltInLaw, LaterLaw, DependencyLaw};

/// The exports of the built-in articles alone are a sound library.
pub fn built_in_law()
    ensures { BuiltInLaw }
{}

/// A library stays sound where an export is added that it may take up.
pub fn added_law()
    ensures { AddedLaw }
{}

/// What an item may rest on grows from item to item of an export, and what a dependency's items may rest on
/// lies within what its dependent's may.
pub fn before_law()
    ensures later { LaterLaw }
    ensures dependency { DependencyLaw }
{}
