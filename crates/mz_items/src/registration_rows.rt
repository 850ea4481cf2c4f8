//! What registrations owe, under their loci.
ghost use Rattle.std.specs.Prelude.{◌≡◌, IfOk, map};
ghost use Rattle.mz_items.specs.RegistrationRows.{adjective_statement, adjectives_inside, existential, conditional, functorial, under_type, existential_thesis, conditional_thesis, functorial_thesis, reduction_thesis, identification_thesis};

use crate::condition::Condition;
use crate::forms::equation;
use crate::quantified::{exists, for_each};
use mz_core::adjective::Adjective;
use mz_core::adjectives::Adjectives;
use mz_core::guard::adjective_literal;
use mz_core::parts::{conjunction, where_all};
use mz_core::registration::{
    ConditionalRegistration, EquationRegistration, ExistentialRegistration, FunctorialRegistration,
};
use mz_core::soft_type::SoftType;
use mz_core::statement::Statement;
use mz_core::statement_forms::implication;
use mz_core::statements::Statements;
use mz_core::type_shift::shift_adjectives;
use mz_core::type_statements::{is_of_type, literal_statement};
use mz_logic::term::Term;
use std::alloc::{AllocError, Global};

fn adjective_statement(alloc: Global, a: &Adjective, t: &Term) -> Result<Statement, AllocError>
    ensures { IfOk result (λ s. s ≡ adjective_statement t.now a.now) }
{
    let l = Box::new(alloc, adjective_literal(alloc, a, t)?)?;
    literal_statement(alloc, &l)
}

fn adjective_statements(alloc: Global, t: &Term, xs: &Adjectives) -> Result<Statements, AllocError>
    ensures { IfOk result (λ ys. ys ≡ map (adjective_statement t.now) xs.now) }
{
    let mut out = Vec::new(alloc);
    for x in &xs.items {
        out.push(adjective_statement(alloc, x, t)?)?;
    }
    Ok(Statements { items: out })
}

fn adjectives_inside(alloc: Global, xs: &Adjectives) -> Result<Statements, AllocError>
    ensures { IfOk result (λ fs. fs ≡ adjectives_inside xs.now) }
{
    let xs = shift_adjectives(alloc, xs, 0, 1)?;
    adjective_statements(alloc, &Term::bound(0), &xs)
}

/// An object of the type has the adjectives.
pub fn existential(alloc: Global, r: &ExistentialRegistration) -> Result<Statement, AllocError>
    ensures { IfOk result (λ f. f ≡ existential r.now) }
{
    let fs = adjectives_inside(alloc, &r.adjectives)?;
    let f = conjunction(alloc, &fs)?;
    exists(alloc, &r.ty, f)
}

/// Each object of the type that has the first adjectives has the others.
pub fn conditional(alloc: Global, r: &ConditionalRegistration) -> Result<Statement, AllocError>
    ensures { IfOk result (λ f. f ≡ conditional r.now) }
{
    let from = adjectives_inside(alloc, &r.from)?;
    let to = adjectives_inside(alloc, &r.to)?;
    let f = conjunction(alloc, &to)?;
    let f = where_all(alloc, &from, f)?;
    for_each(alloc, &r.ty, f)
}

fn under_type(
    alloc: Global,
    ty: &Option<SoftType>,
    t: &Term,
    f: Statement,
) -> Result<Statement, AllocError>
    ensures { IfOk result (λ g. g ≡ under_type ty.now t.now f) }
{
    match ty {
        None => Ok(f),
        Some(ty) => {
            let f = Box::new(alloc, f)?;
            let g = is_of_type(alloc, ty, t)?;
            implication(alloc, g, Box::into_inner(f))
        }
    }
}

/// The term has the adjectives, where it is of the type.
pub fn functorial(alloc: Global, r: &FunctorialRegistration) -> Result<Statement, AllocError>
    ensures { IfOk result (λ f. f ≡ functorial r.now) }
{
    let fs = adjective_statements(alloc, &r.term, &r.adjectives)?;
    let f = conjunction(alloc, &fs)?;
    under_type(alloc, &r.ty, &r.term, f)
}

/// Existence of an existential registration.
pub fn existential_thesis(
    alloc: Global,
    r: &ExistentialRegistration,
    c: Condition,
) -> Result<Option<Statement>, AllocError>
    ensures { IfOk result (λ s. s ≡ existential_thesis r.now c) }
{
    match c {
        Condition::Existence => Ok(Some(existential(alloc, r)?)),
        _ => Ok(None),
    }
}

/// Coherence of a conditional registration.
pub fn conditional_thesis(
    alloc: Global,
    r: &ConditionalRegistration,
    c: Condition,
) -> Result<Option<Statement>, AllocError>
    ensures { IfOk result (λ s. s ≡ conditional_thesis r.now c) }
{
    match c {
        Condition::Coherence => Ok(Some(conditional(alloc, r)?)),
        _ => Ok(None),
    }
}

/// Coherence of a functorial registration.
pub fn functorial_thesis(
    alloc: Global,
    r: &FunctorialRegistration,
    c: Condition,
) -> Result<Option<Statement>, AllocError>
    ensures { IfOk result (λ s. s ≡ functorial_thesis r.now c) }
{
    match c {
        Condition::Coherence => Ok(Some(functorial(alloc, r)?)),
        _ => Ok(None),
    }
}

/// Reducibility.
pub fn reduction_thesis(
    alloc: Global,
    r: &EquationRegistration,
    c: Condition,
) -> Result<Option<Statement>, AllocError>
    ensures { IfOk result (λ s. s ≡ reduction_thesis r.now c) }
{
    match c {
        Condition::Reducibility => Ok(Some(equation(alloc, &r.left, &r.right)?)),
        _ => Ok(None),
    }
}

/// Compatibility of an identification.
pub fn identification_thesis(
    alloc: Global,
    r: &EquationRegistration,
    c: Condition,
) -> Result<Option<Statement>, AllocError>
    ensures { IfOk result (λ s. s ≡ identification_thesis r.now c) }
{
    match c {
        Condition::Compatibility => Ok(Some(equation(alloc, &r.left, &r.right)?)),
        _ => Ok(None),
    }
}
