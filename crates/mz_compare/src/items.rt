//! Comparison of items and exports.
ghost use Rattle.std.specs.Prelude.{◌≡◌, ◌↔◌, IsTrue};

use crate::definitions::{
    atom_definition_equal, atom_redefinition_equal, attribute_definition_equal,
    equals_definition_equal, functor_redefinition_equal, means_definition_equal,
    mode_redefinition_equal,
};
use crate::lists::{Compared, are_equal};
use crate::notations::notation_equal;
use crate::properties::property_equal;
use crate::registrations::{
    conditional_equal, equation_equal, existential_equal, functorial_equal,
};
use crate::schemes::scheme_equal;
use crate::structures::{choice_equal, set_term_equal, structure_equal};
use mz_base::name::Name;
use mz_base::names::Names;
use mz_core::item::Item;
use mz_core::items::Items;
use mz_core::notations::Notations;
use mz_core::outcome::Export;

/// Whether the items are equal.
pub fn item_equal(a: &Item, b: &Item) -> bool
    ensures { IsTrue result ↔ (a.now ≡ b.now) }
{
    match (a, b) {
        (Item::Axiom(x), Item::Axiom(u)) => x.equals(u),
        (Item::AxiomScheme(x), Item::AxiomScheme(u)) => scheme_equal(x, u),
        (Item::Primitive(x), Item::Primitive(u)) => notation_equal(x, u),
        (Item::Theorem(x), Item::Theorem(u)) => x.equals(u),
        (Item::Scheme(x), Item::Scheme(u)) => scheme_equal(x, u),
        (Item::FunctorMeans(x), Item::FunctorMeans(u)) => means_definition_equal(x, u),
        (Item::FunctorEquals(x), Item::FunctorEquals(u)) => equals_definition_equal(x, u),
        (Item::Predicate(x), Item::Predicate(u)) => atom_definition_equal(x, u),
        (Item::Attribute(x), Item::Attribute(u)) => attribute_definition_equal(x, u),
        (Item::ModeMeans(x), Item::ModeMeans(u)) => means_definition_equal(x, u),
        (Item::Abbreviation(x), Item::Abbreviation(u)) => notation_equal(x, u),
        (Item::Notation(x), Item::Notation(u)) => notation_equal(x, u),
        (Item::RedefinedFunctor(x), Item::RedefinedFunctor(u)) => functor_redefinition_equal(x, u),
        (Item::RedefinedMode(x), Item::RedefinedMode(u)) => mode_redefinition_equal(x, u),
        (Item::RedefinedPredicate(x), Item::RedefinedPredicate(u)) => atom_redefinition_equal(x, u),
        (Item::RedefinedAttribute(x), Item::RedefinedAttribute(u)) => atom_redefinition_equal(x, u),
        (Item::Property(x), Item::Property(u)) => property_equal(x, u),
        (Item::Existential(x), Item::Existential(u)) => existential_equal(x, u),
        (Item::Conditional(x), Item::Conditional(u)) => conditional_equal(x, u),
        (Item::Functorial(x), Item::Functorial(u)) => functorial_equal(x, u),
        (Item::Reduction(x), Item::Reduction(u)) => equation_equal(x, u),
        (Item::Identification(x), Item::Identification(u)) => equation_equal(x, u),
        (Item::Structure(x), Item::Structure(u)) => structure_equal(x, u),
        (Item::SetTerm(x), Item::SetTerm(u)) => set_term_equal(x, u),
        (Item::Choice(x), Item::Choice(u)) => choice_equal(x, u),
        _ => false,
    }
}

impl Compared for Item {
    fn is_equal(&self, other: &Item) -> bool {
        item_equal(self, other)
    }
}

impl Compared for Name {
    fn is_equal(&self, other: &Name) -> bool {
        *self == *other
    }
}

/// Whether the names are equal, in their order.
fn names_equal(a: &Names, b: &Names) -> bool
    ensures { IsTrue result ↔ (a.now ≡ b.now) }
{
    are_equal(a.items.as_slice(), b.items.as_slice())
}

/// Whether the lists of items are equal.
fn items_equal(a: &Items, b: &Items) -> bool
    ensures { IsTrue result ↔ (a.now ≡ b.now) }
{
    are_equal(a.items.as_slice(), b.items.as_slice())
}

/// Whether the lists of notations are equal.
fn notations_equal(a: &Notations, b: &Notations) -> bool
    ensures { IsTrue result ↔ (a.now ≡ b.now) }
{
    are_equal(a.items.as_slice(), b.items.as_slice())
}

/// Whether the exports are equal.
pub fn export_equal(a: &Export, b: &Export) -> bool
    ensures { IsTrue result ↔ (a.now ≡ b.now) }
{
    a.name.is_equal(&b.name)
        && names_equal(&a.dependencies, &b.dependencies)
        && items_equal(&a.items, &b.items)
        && notations_equal(&a.notations, &b.notations)
}
