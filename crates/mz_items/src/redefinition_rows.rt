//! What redefinitions owe, under their loci.
ghost use Rattle.std.specs.Prelude.{◌≡◌, IfOk};
ghost use Rattle.mz_core.specs.TypeStatements.{literal_statement};
ghost use Rattle.mz_items.specs.RedefinitionRows.{functor_coherence, mode_coherence, functor_compatibility, mode_compatibility, atom_compatibility, type_or, functor_redefinition_thesis, mode_redefinition_thesis, atom_redefinition_thesis};

use crate::condition::Condition;
use crate::definition_rows::{atom_means, functor_equals, functor_means, mode_means, mode_type};
use mz_core::redefinition::{
    AtomRedefinition, FunctorMeaning, FunctorRedefinition, ModeRedefinition,
};
use mz_core::soft_type::SoftType;
use mz_core::statement::Statement;
use mz_core::type_statements::{is_of_type, literal_statement};
use mz_logic::term::Term;
use std::alloc::{AllocError, Global};

fn functor_coherence(
    alloc: Global,
    term: &Term,
    ty: &Option<SoftType>,
) -> Result<Option<Statement>, AllocError>
    ensures { IfOk result (λ s. s ≡ functor_coherence term.now ty.now) }
{
    match ty {
        None => Ok(None),
        Some(ty) => Ok(Some(is_of_type(alloc, ty, term)?)),
    }
}

fn mode_coherence(
    alloc: Global,
    mode: &SoftType,
    ty: &Option<SoftType>,
) -> Result<Option<Statement>, AllocError>
    ensures { IfOk result (λ s. s ≡ mode_coherence mode.now ty.now) }
{
    match ty {
        None => Ok(None),
        Some(ty) => Ok(Some(mode_type(alloc, mode, ty)?)),
    }
}

fn type_or<'a>(ty: &'a Option<SoftType>, old: &'a SoftType) -> &'a SoftType
    ensures { result.now ≡ type_or ty.now old.now }
{
    match ty {
        None => old,
        Some(ty) => ty,
    }
}

fn functor_compatibility(
    alloc: Global,
    d: &FunctorRedefinition,
    ty: &SoftType,
) -> Result<Option<Statement>, AllocError>
    ensures { IfOk result (λ s. s ≡ functor_compatibility d.now.term ty.now d.now.meaning) }
{
    match &d.meaning {
        None => Ok(None),
        Some(FunctorMeaning::Means(m)) => Ok(Some(functor_means(alloc, &d.term, ty, m)?)),
        Some(FunctorMeaning::Equals(m)) => Ok(Some(functor_equals(alloc, &d.term, m)?)),
    }
}

fn mode_compatibility(
    alloc: Global,
    d: &ModeRedefinition,
    ty: &SoftType,
) -> Result<Option<Statement>, AllocError>
    ensures { IfOk result (λ s. s ≡ mode_compatibility d.now.mode ty.now d.now.meaning) }
{
    match &d.meaning {
        None => Ok(None),
        Some(m) => Ok(Some(mode_means(alloc, &d.mode, ty, m)?)),
    }
}

fn atom_compatibility(alloc: Global, d: &AtomRedefinition) -> Result<Option<Statement>, AllocError>
    ensures { IfOk result (λ s. s ≡ atom_compatibility (literal_statement d.now.literal) d.now.meaning) }
{
    match &d.meaning {
        None => Ok(None),
        Some(m) => {
            let s = Box::new(alloc, literal_statement(alloc, &d.literal)?)?;
            Ok(Some(atom_means(alloc, &s, m)?))
        }
    }
}

/// Coherence of a new type and compatibility of a new meaning.
pub fn functor_redefinition_thesis(
    alloc: Global,
    d: &FunctorRedefinition,
    c: Condition,
) -> Result<Option<Statement>, AllocError>
    ensures { IfOk result (λ s. s ≡ functor_redefinition_thesis d.now c) }
{
    match c {
        Condition::Coherence => functor_coherence(alloc, &d.term, &d.ty),
        Condition::Compatibility => functor_compatibility(alloc, d, type_or(&d.ty, &d.old)),
        _ => Ok(None),
    }
}

/// The same of a mode.
pub fn mode_redefinition_thesis(
    alloc: Global,
    d: &ModeRedefinition,
    c: Condition,
) -> Result<Option<Statement>, AllocError>
    ensures { IfOk result (λ s. s ≡ mode_redefinition_thesis d.now c) }
{
    match c {
        Condition::Coherence => mode_coherence(alloc, &d.mode, &d.ty),
        Condition::Compatibility => mode_compatibility(alloc, d, type_or(&d.ty, &d.old)),
        _ => Ok(None),
    }
}

/// Compatibility of a new meaning of a predicate or an attribute.
pub fn atom_redefinition_thesis(
    alloc: Global,
    d: &AtomRedefinition,
    c: Condition,
) -> Result<Option<Statement>, AllocError>
    ensures { IfOk result (λ s. s ≡ atom_redefinition_thesis d.now c) }
{
    match c {
        Condition::Compatibility => atom_compatibility(alloc, d),
        _ => Ok(None),
    }
}
