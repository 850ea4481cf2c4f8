//! Environment parts: directives and the names that they hold.
use crate::name::Name;
use crate::place::Place;
use std::marker::Model;

/// What a directive is, one for each directive's word (`docs/LANGUAGE.md`).
#[derive(Clone, Copy, Debug, PartialEq, Eq)]
pub enum DirectiveKind {
    /// `vocabularies`
    Vocabularies,
    /// `notations`
    Notations,
    /// `constructors`
    Constructors,
    /// `registrations`
    Registrations,
    /// `definitions`
    Definitions,
    /// `theorems`
    Theorems,
    /// `schemes`
    Schemes,
    /// `requirements`
    Requirements,
    /// `equalities`
    Equalities,
    /// `expansions`
    Expansions,
}

/// A name and where it stands.
#[derive(Clone, Copy, Debug, PartialEq, Eq)]
pub struct PlacedName {
    pub name: Name,
    /// The place of its first byte.
    pub place: Place,
}

/// Names with their places, in the order of the text.
#[derive(Debug, Drop)]
pub struct PlacedNames {
    pub items: Vec<PlacedName>,
}

impl Model for PlacedNames {
    ghost use Rattle.std.specs.Prelude.{List};
    ghost use Rattle.mz_base.specs.declared.head.PlacedName.{PlacedName};

    ghost Value = { List PlacedName };

    ghost view = { λ a. a.items.items };
}

/// A directive of an environment part.
#[derive(Debug, Drop)]
pub struct Directive {
    pub kind: DirectiveKind,
    /// The place of its word.
    pub place: Place,
    pub names: PlacedNames,
}

/// The environment part of an article: its directives, in the order of the text.
#[derive(Debug, Drop)]
pub struct Head {
    pub items: Vec<Directive>,
}

impl Model for Head {
    ghost use Rattle.std.specs.Prelude.{List};
    ghost use Rattle.mz_base.specs.declared.head.Directive.{Directive};

    ghost Value = { List Directive };

    ghost view = { λ a. a.items.items };
}
