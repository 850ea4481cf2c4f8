//! What definitions owe and grant, under their loci.
ghost use Rattle.std.specs.Prelude.{◌≡◌, IfOk, map};
ghost use Rattle.mz_core.specs.Statement.{Eq, And, For};
ghost use Rattle.mz_core.specs.StatementForms.{equivalence, for_some};
ghost use Rattle.mz_core.specs.TypeShift.{shift_type, shift_statement};
ghost use Rattle.mz_core.specs.TypeStatements.{is_of_type};
ghost use Rattle.mz_items.specs.DefinitionRows.{existence, unique, uniqueness, coherence, defining_formula, functor_means, functor_equals, atom_means, mode_type, mode_defining_formula, mode_means};

use crate::cases::{
    each_case, formula_conditions, formula_definientia, term_conditions, term_definientia,
};
use crate::forms::{equation, equivalent};
use crate::quantified::{exists, for_each};
use mz_core::formula_definiens::FormulaDefiniens;
use mz_core::soft_type::SoftType;
use mz_core::statement::{Statement, StatementNode};
use mz_core::statement_forms::{equivalence, implication};
use mz_core::statements::Statements;
use mz_core::term_definiens::TermDefiniens;
use mz_core::type_shift::{shift_statement, shift_type};
use mz_core::type_statements::{is_of_type, is_of_type_inside};
use mz_logic::shift::shift;
use mz_logic::term::{Term, Terms};
use std::alloc::{AllocError, Global};

fn each_exists(alloc: Global, ty: &SoftType, xs: &Statements) -> Result<Statements, AllocError>
    ensures { IfOk result (λ ys. ys ≡ map (for_some ty.now) xs.now) }
{
    let mut out = Vec::new(alloc);
    for x in &xs.items {
        out.push(exists(alloc, ty, x.copy(alloc)?)?)?;
    }
    Ok(Statements { items: out })
}

/// In each case, there is an object of the type with the definiens.
pub fn existence(
    alloc: Global,
    ty: &SoftType,
    d: &FormulaDefiniens,
) -> Result<Statement, AllocError>
    ensures { IfOk result (λ f. f ≡ existence ty.now d.now) }
{
    let cs = formula_conditions(alloc, d)?;
    let ds = formula_definientia(alloc, d)?;
    let fs = each_exists(alloc, ty, &ds)?;
    each_case(alloc, &cs, fs)
}

fn both_have(alloc: Global, d: &Statement) -> Result<Statement, AllocError>
    ensures { IfOk result (λ f. f ≡ And (shift_statement 0 1 d.now) (shift_statement 1 1 d.now)) }
{
    let first = Box::new(alloc, shift_statement(alloc, d, 0, 1)?)?;
    let second = Box::new(alloc, shift_statement(alloc, d, 1, 1)?)?;
    Ok(Statement {
        node: StatementNode::And(first, second),
    })
}

fn for_each_inside(alloc: Global, ty: &SoftType, s: Statement) -> Result<Statement, AllocError>
    ensures { IfOk result (λ f. f ≡ For (shift_type 0 1 ty.now) s) }
{
    let s = Box::new(alloc, s)?;
    let ty = shift_type(alloc, ty, 0, 1)?;
    Ok(Statement {
        node: StatementNode::For(ty, s),
    })
}

fn unique(alloc: Global, ty: &SoftType, d: &Statement) -> Result<Statement, AllocError>
    ensures { IfOk result (λ f. f ≡ unique ty.now d.now) }
{
    let both = both_have(alloc, d)?;
    let equal = Statement::equation(Term::bound(1), Term::bound(0));
    let f = implication(alloc, both, equal)?;
    let f = for_each_inside(alloc, ty, f)?;
    for_each(alloc, ty, f)
}

fn each_unique(alloc: Global, ty: &SoftType, xs: &Statements) -> Result<Statements, AllocError>
    ensures { IfOk result (λ ys. ys ≡ map (unique ty.now) xs.now) }
{
    let mut out = Vec::new(alloc);
    for x in &xs.items {
        out.push(unique(alloc, ty, x)?)?;
    }
    Ok(Statements { items: out })
}

/// In each case, two objects of the type with the definiens are equal.
pub fn uniqueness(
    alloc: Global,
    ty: &SoftType,
    d: &FormulaDefiniens,
) -> Result<Statement, AllocError>
    ensures { IfOk result (λ f. f ≡ uniqueness ty.now d.now) }
{
    let cs = formula_conditions(alloc, d)?;
    let ds = formula_definientia(alloc, d)?;
    let fs = each_unique(alloc, ty, &ds)?;
    each_case(alloc, &cs, fs)
}

fn each_of_type(alloc: Global, ty: &SoftType, xs: &Terms) -> Result<Statements, AllocError>
    ensures { IfOk result (λ ys. ys ≡ map (is_of_type ty.now) xs.now) }
{
    let mut out = Vec::new(alloc);
    for x in &xs.items {
        out.push(is_of_type(alloc, ty, x)?)?;
    }
    Ok(Statements { items: out })
}

/// In each case, the term is of the type.
pub fn coherence(alloc: Global, ty: &SoftType, d: &TermDefiniens) -> Result<Statement, AllocError>
    ensures { IfOk result (λ f. f ≡ coherence ty.now d.now) }
{
    let cs = term_conditions(alloc, d)?;
    let ts = term_definientia(alloc, d)?;
    let fs = each_of_type(alloc, ty, &ts)?;
    each_case(alloc, &cs, fs)
}

fn defining_formula(
    alloc: Global,
    term: &Term,
    ty: &SoftType,
    d: &Statement,
) -> Result<Statement, AllocError>
    ensures { IfOk result (λ f. f ≡ defining_formula term.now ty.now d.now) }
{
    let term = shift(alloc, term, 0, 1)?;
    let d = d.copy(alloc)?;
    let f = equivalence(alloc, Statement::equation(Term::bound(0), term), d)?;
    for_each(alloc, ty, f)
}

fn each_defined(
    alloc: Global,
    term: &Term,
    ty: &SoftType,
    xs: &Statements,
) -> Result<Statements, AllocError>
    ensures { IfOk result (λ ys. ys ≡ map (defining_formula term.now ty.now) xs.now) }
{
    let mut out = Vec::new(alloc);
    for x in &xs.items {
        out.push(defining_formula(alloc, term, ty, x)?)?;
    }
    Ok(Statements { items: out })
}

/// In each case, an object of the type is equal to the term exactly where it has the definiens.
pub fn functor_means(
    alloc: Global,
    term: &Term,
    ty: &SoftType,
    d: &FormulaDefiniens,
) -> Result<Statement, AllocError>
    ensures { IfOk result (λ f. f ≡ functor_means term.now ty.now d.now) }
{
    let cs = formula_conditions(alloc, d)?;
    let ds = formula_definientia(alloc, d)?;
    let fs = each_defined(alloc, term, ty, &ds)?;
    each_case(alloc, &cs, fs)
}

fn each_equal(alloc: Global, term: &Term, xs: &Terms) -> Result<Statements, AllocError>
    ensures { IfOk result (λ ys. ys ≡ map (Eq term.now) xs.now) }
{
    let mut out = Vec::new(alloc);
    for x in &xs.items {
        out.push(equation(alloc, term, x)?)?;
    }
    Ok(Statements { items: out })
}

/// In each case, the functor's term is equal to that of the case.
pub fn functor_equals(
    alloc: Global,
    term: &Term,
    d: &TermDefiniens,
) -> Result<Statement, AllocError>
    ensures { IfOk result (λ f. f ≡ functor_equals term.now d.now) }
{
    let cs = term_conditions(alloc, d)?;
    let ts = term_definientia(alloc, d)?;
    let fs = each_equal(alloc, term, &ts)?;
    each_case(alloc, &cs, fs)
}

fn each_equivalent(alloc: Global, f: &Statement, xs: &Statements) -> Result<Statements, AllocError>
    ensures { IfOk result (λ ys. ys ≡ map (equivalence f.now) xs.now) }
{
    let mut out = Vec::new(alloc);
    for x in &xs.items {
        out.push(equivalent(alloc, f, x)?)?;
    }
    Ok(Statements { items: out })
}

/// In each case, the atom holds exactly where the definiens does.
pub fn atom_means(
    alloc: Global,
    f: &Statement,
    d: &FormulaDefiniens,
) -> Result<Statement, AllocError>
    ensures { IfOk result (λ g. g ≡ atom_means f.now d.now) }
{
    let cs = formula_conditions(alloc, d)?;
    let ds = formula_definientia(alloc, d)?;
    let fs = each_equivalent(alloc, f, &ds)?;
    each_case(alloc, &cs, fs)
}

/// Each object of the mode is of the type.
pub fn mode_type(alloc: Global, mode: &SoftType, ty: &SoftType) -> Result<Statement, AllocError>
    ensures { IfOk result (λ f. f ≡ mode_type mode.now ty.now) }
{
    let f = is_of_type_inside(alloc, ty)?;
    for_each(alloc, mode, f)
}

fn mode_defining_formula(
    alloc: Global,
    mode: &SoftType,
    ty: &SoftType,
    d: &Statement,
) -> Result<Statement, AllocError>
    ensures { IfOk result (λ f. f ≡ mode_defining_formula mode.now ty.now d.now) }
{
    let m = Box::new(alloc, is_of_type_inside(alloc, mode)?)?;
    let d = d.copy(alloc)?;
    let f = equivalence(alloc, Box::into_inner(m), d)?;
    for_each(alloc, ty, f)
}

fn each_mode_defined(
    alloc: Global,
    mode: &SoftType,
    ty: &SoftType,
    xs: &Statements,
) -> Result<Statements, AllocError>
    ensures { IfOk result (λ ys. ys ≡ map (mode_defining_formula mode.now ty.now) xs.now) }
{
    let mut out = Vec::new(alloc);
    for x in &xs.items {
        out.push(mode_defining_formula(alloc, mode, ty, x)?)?;
    }
    Ok(Statements { items: out })
}

/// In each case, an object of the type is of the mode exactly where it has the definiens.
pub fn mode_means(
    alloc: Global,
    mode: &SoftType,
    ty: &SoftType,
    d: &FormulaDefiniens,
) -> Result<Statement, AllocError>
    ensures { IfOk result (λ f. f ≡ mode_means mode.now ty.now d.now) }
{
    let cs = formula_conditions(alloc, d)?;
    let ds = formula_definientia(alloc, d)?;
    let fs = each_mode_defined(alloc, mode, ty, &ds)?;
    each_case(alloc, &cs, fs)
}
