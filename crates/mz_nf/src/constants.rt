//! The constants of a problem, and new ones.
ghost use Rattle.std.specs.Prelude.{◌≡◌, ◌+◌, ℕ, IfOk, OnOk};
ghost use Rattle.mz_nf.specs.Problem.{has_constant};
ghost use Rattle.mz_nf.specs.Constants.{has, AddsTerm, AddsTerms, AddsFormula, AddsFormulas, IsLeastUnused};

use crate::problem::Problem;
use mz_logic::formula::{Formula, FormulaNode};
use mz_logic::formulas::Formulas;
use mz_logic::term::{Term, TermNode, Terms};
use std::alloc::{AllocError, Global};
use std::collections::HashSet;

/// The numbers of the constants that a problem has.
#[tactic(auto, using(crate::proofs::ConstantsLemmas::problem_rules))]
pub fn constants_of(alloc: Global, p: &Problem) -> Result<HashSet<u32>, AllocError>
    ensures { IfOk result (λ s. (c : ℕ) → has s c ≡ has_constant p.now c) }
{
    let mut numbers = HashSet::new(alloc);
    add_formulas(&mut numbers, &p.premises)?;
    add_formula(&mut numbers, &p.conclusion)?;
    Ok(numbers)
}

#[tactic(auto, using(crate::proofs::ConstantsLemmas::formulas_rules))]
fn add_formulas(numbers: &mut HashSet<u32>, fs: &Formulas) -> Result<(), AllocError>
    ensures { OnOk result (AddsFormulas fs.now numbers.old numbers.new) }
{
    for f in &fs.items {
        add_formula(numbers, f)?;
    }
    Ok(())
}

#[tactic(auto, using(crate::proofs::ConstantsLemmas::formula_rules))]
fn add_formula(numbers: &mut HashSet<u32>, f: &Formula) -> Result<(), AllocError>
    ensures { OnOk result (AddsFormula f.now numbers.old numbers.new) }
{
    match &f.node {
        FormulaNode::Truth => Ok(()),
        FormulaNode::Eq(t, u) => {
            add_term(numbers, t)?;
            add_term(numbers, u)?;
            Ok(())
        }
        FormulaNode::Atom(_, ts) => {
            add_terms(numbers, ts)?;
            Ok(())
        }
        FormulaNode::Not(g) => {
            add_formula(numbers, g)?;
            Ok(())
        }
        FormulaNode::And(g, h) => {
            add_formula(numbers, g)?;
            add_formula(numbers, h)?;
            Ok(())
        }
        FormulaNode::All(b) => {
            add_formula(numbers, b)?;
            Ok(())
        }
    }
}

#[cycle(add)]
#[tactic(auto, using(crate::proofs::ConstantsLemmas::term_rules))]
fn add_term(numbers: &mut HashSet<u32>, t: &Term) -> Result<(), AllocError>
    ensures { OnOk result (AddsTerm t.now numbers.old numbers.new) }
{
    match &t.node {
        TermNode::Bound(_) => Ok(()),
        TermNode::Const(number) => {
            numbers.insert(*number)?;
            Ok(())
        }
        TermNode::App(_, ts) => {
            add_terms(numbers, ts)?;
            Ok(())
        }
    }
}

#[cycle(add)]
#[tactic(auto, using(crate::proofs::ConstantsLemmas::terms_rules))]
fn add_terms(numbers: &mut HashSet<u32>, ts: &Terms) -> Result<(), AllocError>
    ensures { OnOk result (AddsTerms ts.now numbers.old numbers.new) }
{
    for t in &ts.items {
        add_term(numbers, t)?;
    }
    Ok(())
}

/// The least number from `from` on that is not in the set. Where a `u32` has none, this is as want of memory.
pub fn least_unused(used: &HashSet<u32>, from: u32) -> Result<u32, AllocError>
    ensures { IfOk result (λ c. IsLeastUnused (has used.now) from c) }
{
    let mut number = from;
    while used.contains(&number) {
        number = following(number)?;
    }
    Ok(number)
}

/// The next number. Where a `u32` has none, this is as want of memory.
pub fn following(number: u32) -> Result<u32, AllocError>
    ensures { IfOk result (λ n. n ≡ number + 1) }
{
    let next = number.checked_add(1).ok_or(AllocError)?;
    Ok(next)
}
