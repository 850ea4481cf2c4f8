//! Definientia that were read in a block, under its loci.
ghost use Rattle.std.specs.Prelude.{◌≡◌, map, IfOk};
ghost use Rattle.mz_defined.specs.Definientia.{formula_case_over, formulas_over, term_case_over, terms_over};

use mz_cluster_items::over_loci::term_over_loci;
use mz_core::formula_definiens::{FormulaCase, FormulaCases, FormulaDefiniens};
use mz_core::term_definiens::{TermCase, TermCases, TermDefiniens};
use mz_loci::loci::statement_over_loci;
use std::alloc::{AllocError, Global};

fn formula_case_over(
    alloc: Global,
    k: &FormulaCase,
    least: u32,
    count: u32,
    inner: u32,
) -> Result<FormulaCase, AllocError>
    ensures { IfOk result (λ j. j ≡ formula_case_over least count inner k.now) }
{
    let condition = statement_over_loci(alloc, &k.condition, least, count)?;
    let definiens = statement_over_loci(alloc, &k.definiens, least, inner)?;
    Ok(FormulaCase {
        condition,
        definiens,
    })
}

fn formula_cases_over(
    alloc: Global,
    ks: &FormulaCases,
    least: u32,
    count: u32,
    inner: u32,
) -> Result<FormulaCases, AllocError>
    ensures { IfOk result (λ js. js ≡ map (formula_case_over least count inner) ks.now) }
{
    let mut out = Vec::new(alloc);
    for k in &ks.items {
        out.push(formula_case_over(alloc, k, least, count, inner)?)?;
    }
    Ok(FormulaCases { items: out })
}

/// Formulas as definientia that were read with the loci as constants, the first of which is `least`: conditions under `count` loci,
/// definientia under `inner`, which is one more where `it` is known.
pub fn formulas_over(
    alloc: Global,
    d: &FormulaDefiniens,
    least: u32,
    count: u32,
    inner: u32,
) -> Result<FormulaDefiniens, AllocError>
    ensures { IfOk result (λ e. e ≡ formulas_over least count inner d.now) }
{
    match d {
        FormulaDefiniens::Plain(s) => {
            let over = statement_over_loci(alloc, s, least, inner)?;
            Ok(FormulaDefiniens::Plain(over))
        }
        FormulaDefiniens::Cases(ks) => {
            let over = formula_cases_over(alloc, ks, least, count, inner)?;
            Ok(FormulaDefiniens::Cases(over))
        }
        FormulaDefiniens::CasesOtherwise(ks, s) => {
            let cases = formula_cases_over(alloc, ks, least, count, inner)?;
            let last = statement_over_loci(alloc, s, least, inner)?;
            Ok(FormulaDefiniens::CasesOtherwise(cases, last))
        }
    }
}

fn term_case_over(
    alloc: Global,
    k: &TermCase,
    least: u32,
    count: u32,
) -> Result<TermCase, AllocError>
    ensures { IfOk result (λ j. j ≡ term_case_over least count k.now) }
{
    let condition = statement_over_loci(alloc, &k.condition, least, count)?;
    let definiens = term_over_loci(alloc, &k.definiens, least, count)?;
    Ok(TermCase {
        condition,
        definiens,
    })
}

fn term_cases_over(
    alloc: Global,
    ks: &TermCases,
    least: u32,
    count: u32,
) -> Result<TermCases, AllocError>
    ensures { IfOk result (λ js. js ≡ map (term_case_over least count) ks.now) }
{
    let mut out = Vec::new(alloc);
    for k in &ks.items {
        out.push(term_case_over(alloc, k, least, count)?)?;
    }
    Ok(TermCases { items: out })
}

/// Terms as definientia that were read with the loci as constants, the first of which is `least`: conditions and definientia under `count`
/// loci.
pub fn terms_over(
    alloc: Global,
    d: &TermDefiniens,
    least: u32,
    count: u32,
) -> Result<TermDefiniens, AllocError>
    ensures { IfOk result (λ e. e ≡ terms_over least count d.now) }
{
    match d {
        TermDefiniens::Plain(t) => {
            let over = term_over_loci(alloc, t, least, count)?;
            Ok(TermDefiniens::Plain(over))
        }
        TermDefiniens::Cases(ks) => {
            let over = term_cases_over(alloc, ks, least, count)?;
            Ok(TermDefiniens::Cases(over))
        }
        TermDefiniens::CasesOtherwise(ks, t) => {
            let cases = term_cases_over(alloc, ks, least, count)?;
            let last = term_over_loci(alloc, t, least, count)?;
            Ok(TermDefiniens::CasesOtherwise(cases, last))
        }
    }
}
