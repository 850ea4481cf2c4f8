//! Copies of registrations.
ghost use Rattle.std.specs.Prelude.{◌≡◌, IfOk};

use crate::definitions::type_if_any_copy;
use mz_core::registration::{
    ConditionalRegistration, EquationRegistration, ExistentialRegistration, FunctorialRegistration,
};
use std::alloc::{AllocError, Global};

/// An equal registration.
pub fn existential_copy(
    alloc: Global,
    x: &ExistentialRegistration,
) -> Result<ExistentialRegistration, AllocError>
    ensures { IfOk result (λ y. y ≡ x.now) }
{
    let loci = x.loci.copy(alloc)?;
    let adjectives = x.adjectives.copy(alloc)?;
    let ty = x.ty.copy(alloc)?;
    Ok(ExistentialRegistration {
        loci,
        adjectives,
        ty,
    })
}

/// An equal registration.
pub fn conditional_copy(
    alloc: Global,
    x: &ConditionalRegistration,
) -> Result<ConditionalRegistration, AllocError>
    ensures { IfOk result (λ y. y ≡ x.now) }
{
    let loci = x.loci.copy(alloc)?;
    let from = x.from.copy(alloc)?;
    let to = x.to.copy(alloc)?;
    let ty = x.ty.copy(alloc)?;
    Ok(ConditionalRegistration { loci, from, to, ty })
}

/// An equal registration.
pub fn functorial_copy(
    alloc: Global,
    x: &FunctorialRegistration,
) -> Result<FunctorialRegistration, AllocError>
    ensures { IfOk result (λ y. y ≡ x.now) }
{
    let loci = x.loci.copy(alloc)?;
    let term = Box::new(alloc, x.term.copy(alloc)?)?;
    let adjectives = x.adjectives.copy(alloc)?;
    let ty = type_if_any_copy(alloc, &x.ty)?;
    Ok(FunctorialRegistration {
        loci,
        term: Box::into_inner(term),
        adjectives,
        ty,
    })
}

/// An equal registration.
pub fn equation_copy(
    alloc: Global,
    x: &EquationRegistration,
) -> Result<EquationRegistration, AllocError>
    ensures { IfOk result (λ y. y ≡ x.now) }
{
    let loci = x.loci.copy(alloc)?;
    let left = Box::new(alloc, x.left.copy(alloc)?)?;
    let right = x.right.copy(alloc)?;
    Ok(EquationRegistration {
        loci,
        left: Box::into_inner(left),
        right,
    })
}
