//! Names in directives.
use mz_base::head::DirectiveKind;
use mz_base::name::Name;
use mz_base::place::Place;

/// A name, where it stands, and the kind of its directive.
#[derive(Clone, Copy, Debug, PartialEq, Eq)]
pub struct Directed {
    pub kind: DirectiveKind,
    pub name: Name,
    pub place: Place,
}
