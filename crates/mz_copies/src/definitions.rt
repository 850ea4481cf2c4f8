//! Copies of definitions and redefinitions.
ghost use Rattle.std.specs.Prelude.{◌≡◌, IfOk};

use crate::cases::{formula_definiens_copy, term_definiens_copy};
use mz_core::definition::{AtomDefinition, AttributeDefinition, EqualsDefinition, MeansDefinition};
use mz_core::formula_definiens::FormulaDefiniens;
use mz_core::redefinition::{
    AtomRedefinition, FunctorMeaning, FunctorRedefinition, ModeRedefinition,
};
use mz_core::soft_type::SoftType;
use std::alloc::{AllocError, Global};

/// An equal definition.
pub fn means_definition_copy(
    alloc: Global,
    x: &MeansDefinition,
) -> Result<MeansDefinition, AllocError>
    ensures { IfOk result (λ y. y ≡ x.now) }
{
    let pattern = Box::new(alloc, x.pattern.copy(alloc)?)?;
    let ty = x.ty.copy(alloc)?;
    let definiens = formula_definiens_copy(alloc, &x.definiens)?;
    Ok(MeansDefinition {
        pattern: Box::into_inner(pattern),
        sym: x.sym,
        ty,
        definiens,
    })
}

/// An equal definition.
pub fn equals_definition_copy(
    alloc: Global,
    x: &EqualsDefinition,
) -> Result<EqualsDefinition, AllocError>
    ensures { IfOk result (λ y. y ≡ x.now) }
{
    let pattern = Box::new(alloc, x.pattern.copy(alloc)?)?;
    let ty = x.ty.copy(alloc)?;
    let definiens = term_definiens_copy(alloc, &x.definiens)?;
    Ok(EqualsDefinition {
        pattern: Box::into_inner(pattern),
        sym: x.sym,
        ty,
        definiens,
    })
}

/// An equal definition.
pub fn atom_definition_copy(alloc: Global, x: &AtomDefinition) -> Result<AtomDefinition, AllocError>
    ensures { IfOk result (λ y. y ≡ x.now) }
{
    let pattern = Box::new(alloc, x.pattern.copy(alloc)?)?;
    let definiens = formula_definiens_copy(alloc, &x.definiens)?;
    Ok(AtomDefinition {
        pattern: Box::into_inner(pattern),
        sym: x.sym,
        definiens,
    })
}

/// An equal definition.
pub fn attribute_definition_copy(
    alloc: Global,
    x: &AttributeDefinition,
) -> Result<AttributeDefinition, AllocError>
    ensures { IfOk result (λ y. y ≡ x.now) }
{
    let pattern = Box::new(alloc, x.pattern.copy(alloc)?)?;
    let definiens = formula_definiens_copy(alloc, &x.definiens)?;
    Ok(AttributeDefinition {
        pattern: Box::into_inner(pattern),
        subject: x.subject,
        sym: x.sym,
        definiens,
    })
}

/// An equal meaning.
pub fn functor_meaning_copy(alloc: Global, x: &FunctorMeaning) -> Result<FunctorMeaning, AllocError>
    ensures { IfOk result (λ y. y ≡ x.now) }
{
    match x {
        FunctorMeaning::Means(u) => Ok(FunctorMeaning::Means(formula_definiens_copy(alloc, u)?)),
        FunctorMeaning::Equals(u) => Ok(FunctorMeaning::Equals(term_definiens_copy(alloc, u)?)),
    }
}

/// The same type, where there is one.
pub fn type_if_any_copy(alloc: Global, x: &Option<SoftType>) -> Result<Option<SoftType>, AllocError>
    ensures { IfOk result (λ y. y ≡ x.now) }
{
    match x {
        None => Ok(None),
        Some(u) => Ok(Some(u.copy(alloc)?)),
    }
}

/// An equal meaning, where there is one.
pub fn functor_meaning_if_any_copy(
    alloc: Global,
    x: &Option<FunctorMeaning>,
) -> Result<Option<FunctorMeaning>, AllocError>
    ensures { IfOk result (λ y. y ≡ x.now) }
{
    match x {
        None => Ok(None),
        Some(u) => Ok(Some(functor_meaning_copy(alloc, u)?)),
    }
}

/// An equal definiens, where there is one.
pub fn definiens_if_any_copy(
    alloc: Global,
    x: &Option<FormulaDefiniens>,
) -> Result<Option<FormulaDefiniens>, AllocError>
    ensures { IfOk result (λ y. y ≡ x.now) }
{
    match x {
        None => Ok(None),
        Some(u) => Ok(Some(formula_definiens_copy(alloc, u)?)),
    }
}

/// An equal redefinition.
pub fn functor_redefinition_copy(
    alloc: Global,
    x: &FunctorRedefinition,
) -> Result<FunctorRedefinition, AllocError>
    ensures { IfOk result (λ y. y ≡ x.now) }
{
    let pattern = Box::new(alloc, x.pattern.copy(alloc)?)?;
    let term = Box::new(alloc, x.term.copy(alloc)?)?;
    let old = Box::new(alloc, x.old.copy(alloc)?)?;
    let ty = Box::new(alloc, type_if_any_copy(alloc, &x.ty)?)?;
    let meaning = functor_meaning_if_any_copy(alloc, &x.meaning)?;
    Ok(FunctorRedefinition {
        pattern: Box::into_inner(pattern),
        term: Box::into_inner(term),
        old: Box::into_inner(old),
        ty: Box::into_inner(ty),
        meaning,
    })
}

/// An equal redefinition.
pub fn mode_redefinition_copy(
    alloc: Global,
    x: &ModeRedefinition,
) -> Result<ModeRedefinition, AllocError>
    ensures { IfOk result (λ y. y ≡ x.now) }
{
    let pattern = Box::new(alloc, x.pattern.copy(alloc)?)?;
    let mode = Box::new(alloc, x.mode.copy(alloc)?)?;
    let old = Box::new(alloc, x.old.copy(alloc)?)?;
    let ty = Box::new(alloc, type_if_any_copy(alloc, &x.ty)?)?;
    let meaning = definiens_if_any_copy(alloc, &x.meaning)?;
    Ok(ModeRedefinition {
        pattern: Box::into_inner(pattern),
        mode: Box::into_inner(mode),
        old: Box::into_inner(old),
        ty: Box::into_inner(ty),
        meaning,
    })
}

/// An equal redefinition.
pub fn atom_redefinition_copy(
    alloc: Global,
    x: &AtomRedefinition,
) -> Result<AtomRedefinition, AllocError>
    ensures { IfOk result (λ y. y ≡ x.now) }
{
    let pattern = Box::new(alloc, x.pattern.copy(alloc)?)?;
    let literal = Box::new(alloc, x.literal.copy(alloc)?)?;
    let meaning = definiens_if_any_copy(alloc, &x.meaning)?;
    Ok(AtomRedefinition {
        pattern: Box::into_inner(pattern),
        literal: Box::into_inner(literal),
        meaning,
    })
}
