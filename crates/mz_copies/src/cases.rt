//! Copies of definientia. A statement is boxed while others are made: a box is let go in one way.
ghost use Rattle.std.specs.Prelude.{◌≡◌, IfOk};

use mz_core::formula_definiens::{FormulaCase, FormulaCases, FormulaDefiniens};
use mz_core::term_definiens::{TermCase, TermCases, TermDefiniens};
use std::alloc::{AllocError, Global};

/// An equal case.
pub fn formula_case_copy(alloc: Global, x: &FormulaCase) -> Result<FormulaCase, AllocError>
    ensures { IfOk result (λ y. y ≡ x.now) }
{
    let condition = Box::new(alloc, x.condition.copy(alloc)?)?;
    let definiens = x.definiens.copy(alloc)?;
    Ok(FormulaCase {
        condition: Box::into_inner(condition),
        definiens,
    })
}

/// Equal cases.
pub fn formula_cases_copy(alloc: Global, xs: &FormulaCases) -> Result<FormulaCases, AllocError>
    ensures { IfOk result (λ ys. ys ≡ xs.now) }
{
    let mut out = Vec::new(alloc);
    for x in &xs.items {
        out.push(formula_case_copy(alloc, x)?)?;
    }
    Ok(FormulaCases { items: out })
}

/// An equal definiens.
pub fn formula_definiens_copy(
    alloc: Global,
    x: &FormulaDefiniens,
) -> Result<FormulaDefiniens, AllocError>
    ensures { IfOk result (λ y. y ≡ x.now) }
{
    match x {
        FormulaDefiniens::Plain(u) => Ok(FormulaDefiniens::Plain(u.copy(alloc)?)),
        FormulaDefiniens::Cases(u) => Ok(FormulaDefiniens::Cases(formula_cases_copy(alloc, u)?)),
        FormulaDefiniens::CasesOtherwise(u, v) => {
            let u = formula_cases_copy(alloc, u)?;
            let v = v.copy(alloc)?;
            Ok(FormulaDefiniens::CasesOtherwise(u, v))
        }
    }
}

/// An equal case.
pub fn term_case_copy(alloc: Global, x: &TermCase) -> Result<TermCase, AllocError>
    ensures { IfOk result (λ y. y ≡ x.now) }
{
    let condition = Box::new(alloc, x.condition.copy(alloc)?)?;
    let definiens = x.definiens.copy(alloc)?;
    Ok(TermCase {
        condition: Box::into_inner(condition),
        definiens,
    })
}

/// Equal cases.
pub fn term_cases_copy(alloc: Global, xs: &TermCases) -> Result<TermCases, AllocError>
    ensures { IfOk result (λ ys. ys ≡ xs.now) }
{
    let mut out = Vec::new(alloc);
    for x in &xs.items {
        out.push(term_case_copy(alloc, x)?)?;
    }
    Ok(TermCases { items: out })
}

/// An equal definiens.
pub fn term_definiens_copy(alloc: Global, x: &TermDefiniens) -> Result<TermDefiniens, AllocError>
    ensures { IfOk result (λ y. y ≡ x.now) }
{
    match x {
        TermDefiniens::Plain(u) => Ok(TermDefiniens::Plain(u.copy(alloc)?)),
        TermDefiniens::Cases(u) => Ok(TermDefiniens::Cases(term_cases_copy(alloc, u)?)),
        TermDefiniens::CasesOtherwise(u, v) => {
            let u = term_cases_copy(alloc, u)?;
            let v = v.copy(alloc)?;
            Ok(TermDefiniens::CasesOtherwise(u, v))
        }
    }
}
