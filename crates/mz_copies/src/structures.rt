//! Copies of structures, set terms and choices.
ghost use Rattle.std.specs.Prelude.{◌≡◌, IfOk};

use mz_core::set_term::{Choice, SetTerm};
use mz_core::structure::{Field, Fields, Structure};
use std::alloc::{AllocError, Global};

/// An equal field.
pub fn field_copy(alloc: Global, x: &Field) -> Result<Field, AllocError>
    ensures { IfOk result (λ y. y ≡ x.now) }
{
    let ty = x.ty.copy(alloc)?;
    Ok(Field {
        selector: x.selector,
        ty,
    })
}

/// Equal fields.
pub fn fields_copy(alloc: Global, xs: &Fields) -> Result<Fields, AllocError>
    ensures { IfOk result (λ ys. ys ≡ xs.now) }
{
    let mut out = Vec::new(alloc);
    for x in &xs.items {
        out.push(field_copy(alloc, x)?)?;
    }
    Ok(Fields { items: out })
}

/// An equal structure.
pub fn structure_copy(alloc: Global, x: &Structure) -> Result<Structure, AllocError>
    ensures { IfOk result (λ y. y ≡ x.now) }
{
    let loci = x.loci.copy(alloc)?;
    let ancestors = x.ancestors.copy(alloc)?;
    let fields = fields_copy(alloc, &x.fields)?;
    let notations = x.notations.copy(alloc)?;
    Ok(Structure {
        loci,
        sym: x.sym,
        strict: x.strict,
        aggregate: x.aggregate,
        ancestors,
        fields,
        notations,
    })
}

/// An equal set term.
pub fn set_term_copy(alloc: Global, x: &SetTerm) -> Result<SetTerm, AllocError>
    ensures { IfOk result (λ y. y ≡ x.now) }
{
    let loci = x.loci.copy(alloc)?;
    let ty = x.ty.copy(alloc)?;
    let term = Box::new(alloc, x.term.copy(alloc)?)?;
    let formula = x.formula.copy(alloc)?;
    Ok(SetTerm {
        loci,
        sym: x.sym,
        ty,
        term: Box::into_inner(term),
        formula,
    })
}

/// An equal choice.
pub fn choice_copy(alloc: Global, x: &Choice) -> Result<Choice, AllocError>
    ensures { IfOk result (λ y. y ≡ x.now) }
{
    let loci = x.loci.copy(alloc)?;
    let ty = x.ty.copy(alloc)?;
    Ok(Choice {
        loci,
        sym: x.sym,
        ty,
    })
}
