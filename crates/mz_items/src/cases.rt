//! Definientia by cases.
ghost use Rattle.std.specs.Prelude.{◌≡◌, ◌++◌, ◌∷◌, [], IfOk, OnOk, map};
ghost use Rattle.mz_core.specs.StatementForms.{implication, opposite};
ghost use Rattle.mz_items.specs.Cases.{formula_case_condition, formula_case_definiens, term_case_condition, term_case_definiens, otherwise_of, formula_conditions, term_conditions, formula_definientia, term_definientia, implications, conditioned, each_case};

use mz_core::formula_definiens::{FormulaCases, FormulaDefiniens};
use mz_core::parts::conjunction;
use mz_core::statement::Statement;
use mz_core::statement_forms::{implication, opposite};
use mz_core::statements::Statements;
use mz_core::term_definiens::{TermCases, TermDefiniens};
use mz_logic::term::{Term, Terms};
use std::alloc::{AllocError, Global};

fn formula_case_conditions(alloc: Global, xs: &FormulaCases) -> Result<Statements, AllocError>
    ensures { IfOk result (λ ys. ys ≡ map formula_case_condition xs.now) }
{
    let mut out = Vec::new(alloc);
    for x in &xs.items {
        out.push(x.condition.copy(alloc)?)?;
    }
    Ok(Statements { items: out })
}

fn formula_case_definientia(alloc: Global, xs: &FormulaCases) -> Result<Statements, AllocError>
    ensures { IfOk result (λ ys. ys ≡ map formula_case_definiens xs.now) }
{
    let mut out = Vec::new(alloc);
    for x in &xs.items {
        out.push(x.definiens.copy(alloc)?)?;
    }
    Ok(Statements { items: out })
}

fn term_case_conditions(alloc: Global, xs: &TermCases) -> Result<Statements, AllocError>
    ensures { IfOk result (λ ys. ys ≡ map term_case_condition xs.now) }
{
    let mut out = Vec::new(alloc);
    for x in &xs.items {
        out.push(x.condition.copy(alloc)?)?;
    }
    Ok(Statements { items: out })
}

fn term_case_definientia(alloc: Global, xs: &TermCases) -> Result<Terms, AllocError>
    ensures { IfOk result (λ ys. ys ≡ map term_case_definiens xs.now) }
{
    let mut out = Vec::new(alloc);
    for x in &xs.items {
        out.push(x.definiens.copy(alloc)?)?;
    }
    Ok(Terms { items: out })
}

fn negations(alloc: Global, xs: &Statements) -> Result<Statements, AllocError>
    ensures { IfOk result (λ ys. ys ≡ map opposite xs.now) }
{
    let mut out = Vec::new(alloc);
    for x in &xs.items {
        out.push(opposite(alloc, x.copy(alloc)?)?)?;
    }
    Ok(Statements { items: out })
}

fn with_otherwise(alloc: Global, cs: Statements) -> Result<Statements, AllocError>
    ensures { IfOk result (λ ds. ds ≡ cs ++ otherwise_of cs ∷ []) }
{
    let mut cs = cs;
    let opposites = negations(alloc, &cs)?;
    let otherwise = conjunction(alloc, &opposites)?;
    cs.push(otherwise)?;
    Ok(cs)
}

/// The conditions of the cases; that of `otherwise` is the conjunction of the negations of the others. A
/// plain definiens has none.
pub fn formula_conditions(alloc: Global, d: &FormulaDefiniens) -> Result<Statements, AllocError>
    ensures { IfOk result (λ fs. fs ≡ formula_conditions d.now) }
{
    match d {
        FormulaDefiniens::Plain(_) => Ok(Statements::new(alloc)),
        FormulaDefiniens::Cases(cases) => formula_case_conditions(alloc, cases),
        FormulaDefiniens::CasesOtherwise(cases, _) => {
            let cs = formula_case_conditions(alloc, cases)?;
            with_otherwise(alloc, cs)
        }
    }
}

/// The same of a definiens that is a term.
pub fn term_conditions(alloc: Global, d: &TermDefiniens) -> Result<Statements, AllocError>
    ensures { IfOk result (λ fs. fs ≡ term_conditions d.now) }
{
    match d {
        TermDefiniens::Plain(_) => Ok(Statements::new(alloc)),
        TermDefiniens::Cases(cases) => term_case_conditions(alloc, cases),
        TermDefiniens::CasesOtherwise(cases, _) => {
            let cs = term_case_conditions(alloc, cases)?;
            with_otherwise(alloc, cs)
        }
    }
}

/// The definiens of each case.
pub fn formula_definientia(alloc: Global, d: &FormulaDefiniens) -> Result<Statements, AllocError>
    ensures { IfOk result (λ fs. fs ≡ formula_definientia d.now) }
{
    match d {
        FormulaDefiniens::Plain(s) => {
            let mut fs = Statements::new(alloc);
            fs.push(s.copy(alloc)?)?;
            Ok(fs)
        }
        FormulaDefiniens::Cases(cases) => formula_case_definientia(alloc, cases),
        FormulaDefiniens::CasesOtherwise(cases, s) => {
            let mut fs = formula_case_definientia(alloc, cases)?;
            fs.push(s.copy(alloc)?)?;
            Ok(fs)
        }
    }
}

/// The term of each case.
pub fn term_definientia(alloc: Global, d: &TermDefiniens) -> Result<Terms, AllocError>
    ensures { IfOk result (λ ts. ts ≡ term_definientia d.now) }
{
    match d {
        TermDefiniens::Plain(t) => {
            let mut ts = Terms::new(alloc);
            ts.push(t.copy(alloc)?)?;
            Ok(ts)
        }
        TermDefiniens::Cases(cases) => term_case_definientia(alloc, cases),
        TermDefiniens::CasesOtherwise(cases, t) => {
            let mut ts = term_case_definientia(alloc, cases)?;
            ts.push(t.copy(alloc)?)?;
            Ok(ts)
        }
    }
}

fn implied(alloc: Global, c: &Statement, f: &Statement) -> Result<Statement, AllocError>
    ensures { IfOk result (λ s. s ≡ implication c.now f.now) }
{
    let c = Box::new(alloc, c.copy(alloc)?)?;
    let f = f.copy(alloc)?;
    implication(alloc, Box::into_inner(c), f)
}

fn push_implications(
    alloc: Global,
    out: &mut Statements,
    cs: &[Statement],
    fs: &[Statement],
) -> Result<(), AllocError>
    ensures { OnOk result (out.new ≡ out.old ++ implications cs.now fs.now) }
{
    match cs {
        [] => Ok(()),
        [c, cs @ ..] => match fs {
            [] => Ok(()),
            [f, fs @ ..] => {
                out.push(implied(alloc, c, f)?)?;
                push_implications(alloc, out, cs, fs)
            }
        },
    }
}

fn conditioned(alloc: Global, cs: &Statements, fs: Statements) -> Result<Statements, AllocError>
    ensures { IfOk result (λ gs. gs ≡ conditioned cs.now fs) }
{
    if cs.items.is_empty() {
        return Ok(fs);
    }
    let mut out = Statements::new(alloc);
    push_implications(alloc, &mut out, cs.items.as_slice(), fs.items.as_slice())?;
    Ok(out)
}

/// The statement of each case under its condition, joined.
pub fn each_case(alloc: Global, cs: &Statements, fs: Statements) -> Result<Statement, AllocError>
    ensures { IfOk result (λ f. f ≡ each_case cs.now fs) }
{
    let fs = conditioned(alloc, cs, fs)?;
    conjunction(alloc, &fs)
}
