//! Refusals of a reading.
use mz_base::place::Place;

/// Why an expression isn't read, and where: a symbol without any notation; none with these numbers of arguments; an
/// identifier, `it`, `$k` or `thesis` that stands for nothing; a type whose adjectives no registration covers; arguments
/// that fit no notation; a reading beyond the limits.
#[derive(Clone, Copy, Debug, PartialEq, Eq)]
pub enum Refusal {
    UnknownSymbol(Place),
    NoNotation(Place),
    UnknownVariable(Place),
    Unregistered(Place),
    UnfitArgument(Place),
    TooLarge(Place),
}
