//! What a condition or a property of an item states.
ghost use Rattle.std.specs.Prelude.{◌≡◌, IfOk, Some};
ghost use Rattle.mz_items.specs.Items.{thesis_of, property_thesis, over_if_any, definitional_theorem};

use crate::condition::Condition;
use crate::definition_theses::{
    atom_thesis, attribute_meaning, equal_functor_meaning, functor_equals_thesis, functor_meaning,
    functor_means_thesis, mode_meaning, mode_means_thesis, predicate_meaning,
};
use crate::property_rows::property_statement;
use crate::quantified::over;
use crate::redefinition_rows::{
    atom_redefinition_thesis, functor_redefinition_thesis, mode_redefinition_thesis,
};
use crate::registration_rows::{
    conditional_thesis, existential_thesis, functorial_thesis, identification_thesis,
    reduction_thesis,
};
use crate::set_term_rows::{choice_thesis, set_term_thesis};
use mz_core::item::Item;
use mz_core::soft_types::SoftTypes;
use mz_core::statement::Statement;
use std::alloc::{AllocError, Global};

/// What the condition of the item states, under the item's loci; nothing where the item doesn't owe it.
pub fn thesis_of(alloc: Global, item: &Item, c: Condition) -> Result<Option<Statement>, AllocError>
    ensures { IfOk result (λ s. s ≡ thesis_of item.now c) }
{
    match item {
        Item::FunctorMeans(d) => functor_means_thesis(alloc, d, c),
        Item::FunctorEquals(d) => functor_equals_thesis(alloc, d, c),
        Item::Predicate(d) => atom_thesis(alloc, &d.definiens, c),
        Item::Attribute(d) => atom_thesis(alloc, &d.definiens, c),
        Item::ModeMeans(d) => mode_means_thesis(alloc, d, c),
        Item::RedefinedFunctor(d) => functor_redefinition_thesis(alloc, d, c),
        Item::RedefinedMode(d) => mode_redefinition_thesis(alloc, d, c),
        Item::RedefinedPredicate(d) => atom_redefinition_thesis(alloc, d, c),
        Item::RedefinedAttribute(d) => atom_redefinition_thesis(alloc, d, c),
        Item::Existential(r) => existential_thesis(alloc, r, c),
        Item::Conditional(r) => conditional_thesis(alloc, r, c),
        Item::Functorial(r) => functorial_thesis(alloc, r, c),
        Item::Reduction(r) => reduction_thesis(alloc, r, c),
        Item::Identification(r) => identification_thesis(alloc, r, c),
        Item::SetTerm(s) => set_term_thesis(alloc, s, c),
        Item::Choice(x) => choice_thesis(alloc, x, c),
        _ => Ok(None),
    }
}

/// The statement of a property, under its loci; nothing for another item.
pub fn property_thesis(alloc: Global, item: &Item) -> Result<Option<Statement>, AllocError>
    ensures { IfOk result (λ s. s ≡ property_thesis item.now) }
{
    match item {
        Item::Property(p) => Ok(Some(property_statement(alloc, &p.loci, &p.form)?)),
        _ => Ok(None),
    }
}

fn over_if_any(
    alloc: Global,
    loci: &SoftTypes,
    thesis: Option<Statement>,
) -> Result<Option<Statement>, AllocError>
    ensures { IfOk result (λ s. s ≡ over_if_any loci.now thesis) }
{
    match thesis {
        None => Ok(None),
        Some(s) => Ok(Some(over(alloc, loci, s)?)),
    }
}

fn theorem_over(
    alloc: Global,
    loci: &SoftTypes,
    s: Statement,
) -> Result<Option<Statement>, AllocError>
    ensures { IfOk result (λ r. r ≡ over_if_any loci.now (Some s)) }
{
    Ok(Some(over(alloc, loci, s)?))
}

/// What can be cited of a definition: its last grant, or the compatibility of a redefinition.
pub fn definitional_theorem(alloc: Global, item: &Item) -> Result<Option<Statement>, AllocError>
    ensures { IfOk result (λ s. s ≡ definitional_theorem item.now) }
{
    match item {
        Item::FunctorMeans(d) => {
            let s = functor_meaning(alloc, d)?;
            theorem_over(alloc, &d.pattern.loci, s)
        }
        Item::FunctorEquals(d) => {
            let s = equal_functor_meaning(alloc, d)?;
            theorem_over(alloc, &d.pattern.loci, s)
        }
        Item::Predicate(d) => {
            let s = predicate_meaning(alloc, d)?;
            theorem_over(alloc, &d.pattern.loci, s)
        }
        Item::Attribute(d) => {
            let s = attribute_meaning(alloc, d)?;
            theorem_over(alloc, &d.pattern.loci, s)
        }
        Item::ModeMeans(d) => {
            let s = mode_meaning(alloc, d)?;
            theorem_over(alloc, &d.pattern.loci, s)
        }
        Item::RedefinedFunctor(d) => {
            let s = functor_redefinition_thesis(alloc, d, Condition::Compatibility)?;
            over_if_any(alloc, &d.pattern.loci, s)
        }
        Item::RedefinedMode(d) => {
            let s = mode_redefinition_thesis(alloc, d, Condition::Compatibility)?;
            over_if_any(alloc, &d.pattern.loci, s)
        }
        Item::RedefinedPredicate(d) => {
            let s = atom_redefinition_thesis(alloc, d, Condition::Compatibility)?;
            over_if_any(alloc, &d.pattern.loci, s)
        }
        Item::RedefinedAttribute(d) => {
            let s = atom_redefinition_thesis(alloc, d, Condition::Compatibility)?;
            over_if_any(alloc, &d.pattern.loci, s)
        }
        _ => Ok(None),
    }
}
