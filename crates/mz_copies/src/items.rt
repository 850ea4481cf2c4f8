//! Copies of items.
ghost use Rattle.std.specs.Prelude.{◌≡◌, IfOk};

use crate::definitions::{
    atom_definition_copy, atom_redefinition_copy, attribute_definition_copy,
    equals_definition_copy, functor_redefinition_copy, means_definition_copy,
    mode_redefinition_copy,
};
use crate::properties::property_copy;
use crate::registrations::{conditional_copy, equation_copy, existential_copy, functorial_copy};
use crate::schemes::scheme_copy;
use crate::structures::{choice_copy, set_term_copy, structure_copy};
use mz_core::item::Item;
use mz_core::items::Items;
use std::alloc::{AllocError, Global};

/// An equal item.
pub fn item_copy(alloc: Global, x: &Item) -> Result<Item, AllocError>
    ensures { IfOk result (λ y. y ≡ x.now) }
{
    match x {
        Item::Axiom(u) => Ok(Item::Axiom(u.copy(alloc)?)),
        Item::AxiomScheme(u) => Ok(Item::AxiomScheme(scheme_copy(alloc, u)?)),
        Item::Primitive(u) => Ok(Item::Primitive(u.copy(alloc)?)),
        Item::Theorem(u) => Ok(Item::Theorem(u.copy(alloc)?)),
        Item::Scheme(u) => Ok(Item::Scheme(scheme_copy(alloc, u)?)),
        Item::FunctorMeans(u) => Ok(Item::FunctorMeans(means_definition_copy(alloc, u)?)),
        Item::FunctorEquals(u) => Ok(Item::FunctorEquals(equals_definition_copy(alloc, u)?)),
        Item::Predicate(u) => Ok(Item::Predicate(atom_definition_copy(alloc, u)?)),
        Item::Attribute(u) => Ok(Item::Attribute(attribute_definition_copy(alloc, u)?)),
        Item::ModeMeans(u) => Ok(Item::ModeMeans(means_definition_copy(alloc, u)?)),
        Item::Abbreviation(u) => Ok(Item::Abbreviation(u.copy(alloc)?)),
        Item::Notation(u) => Ok(Item::Notation(u.copy(alloc)?)),
        Item::RedefinedFunctor(u) => Ok(Item::RedefinedFunctor(functor_redefinition_copy(
            alloc, u,
        )?)),
        Item::RedefinedMode(u) => Ok(Item::RedefinedMode(mode_redefinition_copy(alloc, u)?)),
        Item::RedefinedPredicate(u) => Ok(Item::RedefinedPredicate(atom_redefinition_copy(
            alloc, u,
        )?)),
        Item::RedefinedAttribute(u) => Ok(Item::RedefinedAttribute(atom_redefinition_copy(
            alloc, u,
        )?)),
        Item::Property(u) => Ok(Item::Property(property_copy(alloc, u)?)),
        Item::Existential(u) => Ok(Item::Existential(existential_copy(alloc, u)?)),
        Item::Conditional(u) => Ok(Item::Conditional(conditional_copy(alloc, u)?)),
        Item::Functorial(u) => Ok(Item::Functorial(functorial_copy(alloc, u)?)),
        Item::Reduction(u) => Ok(Item::Reduction(equation_copy(alloc, u)?)),
        Item::Identification(u) => Ok(Item::Identification(equation_copy(alloc, u)?)),
        Item::Structure(u) => Ok(Item::Structure(structure_copy(alloc, u)?)),
        Item::SetTerm(u) => Ok(Item::SetTerm(set_term_copy(alloc, u)?)),
        Item::Choice(u) => Ok(Item::Choice(choice_copy(alloc, u)?)),
    }
}

/// Equal items.
pub fn items_copy(alloc: Global, xs: &Items) -> Result<Items, AllocError>
    ensures { IfOk result (λ ys. ys ≡ xs.now) }
{
    let mut out = Vec::new(alloc);
    for x in &xs.items {
        out.push(item_copy(alloc, x)?)?;
    }
    Ok(Items { items: out })
}
