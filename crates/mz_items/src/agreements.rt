//! Where cases of a definiens have to agree.
ghost use Rattle.std.specs.Prelude.{◌≡◌, ◌++◌, OnOk, IfOk, map};
ghost use Rattle.mz_core.specs.Statement.{And};
ghost use Rattle.mz_core.specs.StatementForms.{implication};
ghost use Rattle.mz_items.specs.Cases.{agree_in_type, agree_as_formulas, agree_as_terms, agreements_in_type, agreements_as_formulas, agreements_as_terms, formula_cases, term_cases};

use crate::forms::equivalent;
use crate::quantified::for_each;
use mz_core::formula_definiens::{FormulaCase, FormulaDefiniens};
use mz_core::soft_type::SoftType;
use mz_core::statement::{Statement, StatementNode};
use mz_core::statement_forms::implication;
use mz_core::statements::Statements;
use mz_core::term_definiens::{TermCase, TermDefiniens};
use std::alloc::{AllocError, Global};

fn both(alloc: Global, c: &Statement, d: &Statement) -> Result<Statement, AllocError>
    ensures { IfOk result (λ r. r ≡ And c.now d.now) }
{
    let c = Box::new(alloc, c.copy(alloc)?)?;
    let d = Box::new(alloc, d.copy(alloc)?)?;
    Ok(Statement {
        node: StatementNode::And(c, d),
    })
}

fn under_both(
    alloc: Global,
    c: &Statement,
    d: &Statement,
    s: Statement,
) -> Result<Statement, AllocError>
    ensures { IfOk result (λ r. r ≡ implication (And c.now d.now) s) }
{
    let s = Box::new(alloc, s)?;
    let both = both(alloc, c, d)?;
    implication(alloc, both, Box::into_inner(s))
}

fn agree_in_type(
    alloc: Global,
    ty: &SoftType,
    c: &FormulaCase,
    d: &FormulaCase,
) -> Result<Statement, AllocError>
    ensures { IfOk result (λ f. f ≡ agree_in_type ty.now c.now d.now) }
{
    let f = equivalent(alloc, &c.definiens, &d.definiens)?;
    let f = for_each(alloc, ty, f)?;
    under_both(alloc, &c.condition, &d.condition, f)
}

fn agree_as_formulas(
    alloc: Global,
    c: &FormulaCase,
    d: &FormulaCase,
) -> Result<Statement, AllocError>
    ensures { IfOk result (λ f. f ≡ agree_as_formulas c.now d.now) }
{
    let f = equivalent(alloc, &c.definiens, &d.definiens)?;
    under_both(alloc, &c.condition, &d.condition, f)
}

fn agree_as_terms(alloc: Global, c: &TermCase, d: &TermCase) -> Result<Statement, AllocError>
    ensures { IfOk result (λ f. f ≡ agree_as_terms c.now d.now) }
{
    let t = c.definiens.copy(alloc)?;
    let u = d.definiens.copy(alloc)?;
    under_both(alloc, &c.condition, &d.condition, Statement::equation(t, u))
}

fn push_in_type(
    alloc: Global,
    out: &mut Statements,
    ty: &SoftType,
    c: &FormulaCase,
    cases: &[FormulaCase],
) -> Result<(), AllocError>
    ensures { OnOk result (out.new ≡ out.old ++ map (agree_in_type ty.now c.now) cases.now) }
{
    for x in cases {
        out.push(agree_in_type(alloc, ty, c, x)?)?;
    }
    Ok(())
}

fn push_as_formulas(
    alloc: Global,
    out: &mut Statements,
    c: &FormulaCase,
    cases: &[FormulaCase],
) -> Result<(), AllocError>
    ensures { OnOk result (out.new ≡ out.old ++ map (agree_as_formulas c.now) cases.now) }
{
    for x in cases {
        out.push(agree_as_formulas(alloc, c, x)?)?;
    }
    Ok(())
}

fn push_as_terms(
    alloc: Global,
    out: &mut Statements,
    c: &TermCase,
    cases: &[TermCase],
) -> Result<(), AllocError>
    ensures { OnOk result (out.new ≡ out.old ++ map (agree_as_terms c.now) cases.now) }
{
    for x in cases {
        out.push(agree_as_terms(alloc, c, x)?)?;
    }
    Ok(())
}

fn push_all_in_type(
    alloc: Global,
    out: &mut Statements,
    ty: &SoftType,
    cases: &[FormulaCase],
) -> Result<(), AllocError>
    ensures { OnOk result (out.new ≡ out.old ++ agreements_in_type ty.now cases.now) }
{
    match cases {
        [] => Ok(()),
        [c, others @ ..] => {
            push_in_type(alloc, out, ty, c, others)?;
            push_all_in_type(alloc, out, ty, others)
        }
    }
}

fn push_all_as_formulas(
    alloc: Global,
    out: &mut Statements,
    cases: &[FormulaCase],
) -> Result<(), AllocError>
    ensures { OnOk result (out.new ≡ out.old ++ agreements_as_formulas cases.now) }
{
    match cases {
        [] => Ok(()),
        [c, others @ ..] => {
            push_as_formulas(alloc, out, c, others)?;
            push_all_as_formulas(alloc, out, others)
        }
    }
}

fn push_all_as_terms(
    alloc: Global,
    out: &mut Statements,
    cases: &[TermCase],
) -> Result<(), AllocError>
    ensures { OnOk result (out.new ≡ out.old ++ agreements_as_terms cases.now) }
{
    match cases {
        [] => Ok(()),
        [c, others @ ..] => {
            push_as_terms(alloc, out, c, others)?;
            push_all_as_terms(alloc, out, others)
        }
    }
}

/// Each earlier case agrees with each later one, on all objects of the type. A plain definiens and
/// `otherwise` have nothing to agree with.
pub fn agreements_in_type(
    alloc: Global,
    ty: &SoftType,
    d: &FormulaDefiniens,
) -> Result<Statements, AllocError>
    ensures { IfOk result (λ fs. fs ≡ agreements_in_type ty.now (formula_cases d.now)) }
{
    let mut out = Statements::new(alloc);
    match d {
        FormulaDefiniens::Plain(_) => {}
        FormulaDefiniens::Cases(cases) => push_all_in_type(
            alloc,
            &mut out,
            ty,
            cases.items.as_slice(),
        )?,
        FormulaDefiniens::CasesOtherwise(cases, _) => {
            push_all_in_type(alloc, &mut out, ty, cases.items.as_slice())?
        }
    }
    Ok(out)
}

/// The same of formulas without a type.
pub fn agreements_as_formulas(alloc: Global, d: &FormulaDefiniens) -> Result<Statements, AllocError>
    ensures { IfOk result (λ fs. fs ≡ agreements_as_formulas (formula_cases d.now)) }
{
    let mut out = Statements::new(alloc);
    match d {
        FormulaDefiniens::Plain(_) => {}
        FormulaDefiniens::Cases(cases) => push_all_as_formulas(
            alloc,
            &mut out,
            cases.items.as_slice(),
        )?,
        FormulaDefiniens::CasesOtherwise(cases, _) => {
            push_all_as_formulas(alloc, &mut out, cases.items.as_slice())?
        }
    }
    Ok(out)
}

/// The same of terms.
pub fn agreements_as_terms(alloc: Global, d: &TermDefiniens) -> Result<Statements, AllocError>
    ensures { IfOk result (λ fs. fs ≡ agreements_as_terms (term_cases d.now)) }
{
    let mut out = Statements::new(alloc);
    match d {
        TermDefiniens::Plain(_) => {}
        TermDefiniens::Cases(cases) => push_all_as_terms(alloc, &mut out, cases.items.as_slice())?,
        TermDefiniens::CasesOtherwise(cases, _) => {
            push_all_as_terms(alloc, &mut out, cases.items.as_slice())?
        }
    }
    Ok(out)
}
