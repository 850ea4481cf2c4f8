//! Copies of properties.
ghost use Rattle.std.specs.Prelude.{◌≡◌, IfOk};

use mz_core::property::{Operation, Property, PropertyForm, Relation, UnaryOperation};
use std::alloc::{AllocError, Global};

/// An equal relation.
pub fn relation_copy(alloc: Global, x: &Relation) -> Result<Relation, AllocError>
    ensures { IfOk result (λ y. y ≡ x.now) }
{
    let literal = x.literal.copy(alloc)?;
    Ok(Relation {
        literal,
        left: x.left,
        right: x.right,
    })
}

/// An equal operation.
pub fn operation_copy(alloc: Global, x: &Operation) -> Result<Operation, AllocError>
    ensures { IfOk result (λ y. y ≡ x.now) }
{
    let term = x.term.copy(alloc)?;
    Ok(Operation {
        term,
        left: x.left,
        right: x.right,
    })
}

/// An equal operation.
pub fn unary_operation_copy(alloc: Global, x: &UnaryOperation) -> Result<UnaryOperation, AllocError>
    ensures { IfOk result (λ y. y ≡ x.now) }
{
    let term = x.term.copy(alloc)?;
    Ok(UnaryOperation {
        term,
        place: x.place,
    })
}

/// An equal form.
pub fn property_form_copy(alloc: Global, x: &PropertyForm) -> Result<PropertyForm, AllocError>
    ensures { IfOk result (λ y. y ≡ x.now) }
{
    match x {
        PropertyForm::Reflexivity(u) => Ok(PropertyForm::Reflexivity(relation_copy(alloc, u)?)),
        PropertyForm::Irreflexivity(u) => Ok(PropertyForm::Irreflexivity(relation_copy(alloc, u)?)),
        PropertyForm::Symmetry(u) => Ok(PropertyForm::Symmetry(relation_copy(alloc, u)?)),
        PropertyForm::Asymmetry(u) => Ok(PropertyForm::Asymmetry(relation_copy(alloc, u)?)),
        PropertyForm::Connectedness(u) => Ok(PropertyForm::Connectedness(relation_copy(alloc, u)?)),
        PropertyForm::Commutativity(u) => Ok(PropertyForm::Commutativity(operation_copy(
            alloc, u,
        )?)),
        PropertyForm::Idempotence(u) => Ok(PropertyForm::Idempotence(operation_copy(alloc, u)?)),
        PropertyForm::Involutiveness(u) => Ok(PropertyForm::Involutiveness(unary_operation_copy(
            alloc, u,
        )?)),
        PropertyForm::Projectivity(u) => Ok(PropertyForm::Projectivity(unary_operation_copy(
            alloc, u,
        )?)),
        PropertyForm::Sethood(s) => Ok(PropertyForm::Sethood(*s)),
    }
}

/// An equal property.
pub fn property_copy(alloc: Global, x: &Property) -> Result<Property, AllocError>
    ensures { IfOk result (λ y. y ≡ x.now) }
{
    let loci = x.loci.copy(alloc)?;
    let form = property_form_copy(alloc, &x.form)?;
    Ok(Property { loci, form })
}
