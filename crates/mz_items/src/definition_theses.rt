//! What conditions of definitions state, and what definitions grant.
ghost use Rattle.std.specs.Prelude.{◌≡◌, IfOk};
ghost use Rattle.mz_items.specs.DefinitionRows.{consistency, functor_means_thesis, functor_type, functor_meaning, functor_equals_thesis, equal_functor_type, equal_functor_meaning, atom_thesis, predicate_meaning, attribute_meaning, mode_means_thesis, mode_result_type, mode_meaning};

use crate::agreements::{agreements_as_formulas, agreements_as_terms, agreements_in_type};
use crate::condition::Condition;
use crate::definition_rows::{
    atom_means, coherence, existence, functor_equals, functor_means, mode_means, mode_type,
    uniqueness,
};
use crate::loci::{attribute_on, mode_on, predicate_on, term_on};
use mz_core::definition::{AtomDefinition, AttributeDefinition, EqualsDefinition, MeansDefinition};
use mz_core::formula_definiens::FormulaDefiniens;
use mz_core::parts::conjunction;
use mz_core::statement::Statement;
use mz_core::statements::Statements;
use mz_core::type_statements::{is_of_type, literal_statement};
use std::alloc::{AllocError, Global};

fn consistency(alloc: Global, ss: Statements) -> Result<Option<Statement>, AllocError>
    ensures { IfOk result (λ s. s ≡ consistency ss) }
{
    if ss.items.is_empty() {
        return Ok(None);
    }
    Ok(Some(conjunction(alloc, &ss)?))
}

/// Existence, uniqueness and consistency of a functor by `means`.
pub fn functor_means_thesis(
    alloc: Global,
    d: &MeansDefinition,
    c: Condition,
) -> Result<Option<Statement>, AllocError>
    ensures { IfOk result (λ s. s ≡ functor_means_thesis d.now c) }
{
    match c {
        Condition::Existence => Ok(Some(existence(alloc, &d.ty, &d.definiens)?)),
        Condition::Uniqueness => Ok(Some(uniqueness(alloc, &d.ty, &d.definiens)?)),
        Condition::Consistency => {
            let ss = agreements_in_type(alloc, &d.ty, &d.definiens)?;
            consistency(alloc, ss)
        }
        _ => Ok(None),
    }
}

/// That a functor by `means` has its type.
pub fn functor_type(alloc: Global, d: &MeansDefinition) -> Result<Statement, AllocError>
    ensures { IfOk result (λ s. s ≡ functor_type d.now) }
{
    let t = term_on(alloc, &d.pattern.loci, d.sym)?;
    is_of_type(alloc, &d.ty, &t)
}

/// What a functor by `means` is.
pub fn functor_meaning(alloc: Global, d: &MeansDefinition) -> Result<Statement, AllocError>
    ensures { IfOk result (λ s. s ≡ functor_meaning d.now) }
{
    let t = term_on(alloc, &d.pattern.loci, d.sym)?;
    functor_means(alloc, &t, &d.ty, &d.definiens)
}

/// Coherence and consistency of a functor by `equals`.
pub fn functor_equals_thesis(
    alloc: Global,
    d: &EqualsDefinition,
    c: Condition,
) -> Result<Option<Statement>, AllocError>
    ensures { IfOk result (λ s. s ≡ functor_equals_thesis d.now c) }
{
    match c {
        Condition::Coherence => Ok(Some(coherence(alloc, &d.ty, &d.definiens)?)),
        Condition::Consistency => {
            let ss = agreements_as_terms(alloc, &d.definiens)?;
            consistency(alloc, ss)
        }
        _ => Ok(None),
    }
}

/// That a functor by `equals` has its type.
pub fn equal_functor_type(alloc: Global, d: &EqualsDefinition) -> Result<Statement, AllocError>
    ensures { IfOk result (λ s. s ≡ equal_functor_type d.now) }
{
    let t = term_on(alloc, &d.pattern.loci, d.sym)?;
    is_of_type(alloc, &d.ty, &t)
}

/// What a functor by `equals` is.
pub fn equal_functor_meaning(alloc: Global, d: &EqualsDefinition) -> Result<Statement, AllocError>
    ensures { IfOk result (λ s. s ≡ equal_functor_meaning d.now) }
{
    let t = term_on(alloc, &d.pattern.loci, d.sym)?;
    functor_equals(alloc, &t, &d.definiens)
}

/// Consistency of a predicate or an attribute.
pub fn atom_thesis(
    alloc: Global,
    d: &FormulaDefiniens,
    c: Condition,
) -> Result<Option<Statement>, AllocError>
    ensures { IfOk result (λ s. s ≡ atom_thesis d.now c) }
{
    match c {
        Condition::Consistency => {
            let ss = agreements_as_formulas(alloc, d)?;
            consistency(alloc, ss)
        }
        _ => Ok(None),
    }
}

/// What a predicate says.
pub fn predicate_meaning(alloc: Global, d: &AtomDefinition) -> Result<Statement, AllocError>
    ensures { IfOk result (λ s. s ≡ predicate_meaning d.now) }
{
    let l = Box::new(alloc, predicate_on(alloc, &d.pattern.loci, d.sym)?)?;
    let s = Box::new(alloc, literal_statement(alloc, &l)?)?;
    atom_means(alloc, &s, &d.definiens)
}

/// What an attribute says.
pub fn attribute_meaning(alloc: Global, d: &AttributeDefinition) -> Result<Statement, AllocError>
    ensures { IfOk result (λ s. s ≡ attribute_meaning d.now) }
{
    let l = Box::new(
        alloc,
        attribute_on(alloc, &d.pattern.loci, d.subject, d.sym)?,
    )?;
    let s = Box::new(alloc, literal_statement(alloc, &l)?)?;
    atom_means(alloc, &s, &d.definiens)
}

/// Existence and consistency of a mode by `means`.
pub fn mode_means_thesis(
    alloc: Global,
    d: &MeansDefinition,
    c: Condition,
) -> Result<Option<Statement>, AllocError>
    ensures { IfOk result (λ s. s ≡ mode_means_thesis d.now c) }
{
    match c {
        Condition::Existence => Ok(Some(existence(alloc, &d.ty, &d.definiens)?)),
        Condition::Consistency => {
            let ss = agreements_in_type(alloc, &d.ty, &d.definiens)?;
            consistency(alloc, ss)
        }
        _ => Ok(None),
    }
}

/// That each object of a mode by `means` has its type.
pub fn mode_result_type(alloc: Global, d: &MeansDefinition) -> Result<Statement, AllocError>
    ensures { IfOk result (λ s. s ≡ mode_result_type d.now) }
{
    let m = mode_on(alloc, &d.pattern.loci, d.sym)?;
    mode_type(alloc, &m, &d.ty)
}

/// What a mode by `means` is.
pub fn mode_meaning(alloc: Global, d: &MeansDefinition) -> Result<Statement, AllocError>
    ensures { IfOk result (λ s. s ≡ mode_meaning d.now) }
{
    let m = mode_on(alloc, &d.pattern.loci, d.sym)?;
    mode_means(alloc, &m, &d.ty, &d.definiens)
}
