//! Terms and formulas under more binders. An index or a depth above 4,294,967,295 is as no memory.
ghost use Rattle.std.specs.Prelude.{◌≡◌, IfOk, map};
ghost use Rattle.mz_logic.specs.Substitution.{shift, shift_formula};

use crate::formula::{Formula, FormulaNode};
use crate::term::{Term, TermNode, Terms};
use std::alloc::{AllocError, Global};

/// The term with `by` more binders outside the innermost `from`: each index from `from` on is raised.
#[cycle(shift)]
#[tactic(auto, using(crate::proofs::ShiftLaws::shift_rules))]
pub fn shift(alloc: Global, t: &Term, from: u32, by: u32) -> Result<Term, AllocError>
    ensures { IfOk result (λ u. u ≡ shift from by t.now) }
{
    match &t.node {
        TermNode::Bound(index) => {
            if *index < from {
                return Ok(Term::bound(*index));
            }
            let index = index.checked_add(by).ok_or(AllocError)?;
            Ok(Term::bound(index))
        }
        TermNode::Const(number) => Ok(Term::constant(*number)),
        TermNode::App(s, ts) => {
            let ts = shift_terms(alloc, ts, from, by)?;
            Ok(Term::apply(*s, ts))
        }
    }
}

/// Each term with `by` more binders outside the innermost `from`.
#[cycle(shift)]
pub fn shift_terms(alloc: Global, ts: &Terms, from: u32, by: u32) -> Result<Terms, AllocError>
    ensures { IfOk result (λ us. us ≡ map (shift from by) ts.now) }
{
    let mut out = Vec::new(alloc);
    for t in &ts.items {
        out.push(shift(alloc, t, from, by)?)?;
    }
    Ok(Terms { items: out })
}

/// The formula with `by` more binders outside the innermost `from`, its own not counted.
pub fn shift_formula(alloc: Global, f: &Formula, from: u32, by: u32) -> Result<Formula, AllocError>
    ensures { IfOk result (λ g. g ≡ shift_formula from by f.now) }
{
    match &f.node {
        FormulaNode::Truth => Ok(Formula::truth()),
        FormulaNode::Eq(t, u) => {
            let t = shift(alloc, t, from, by)?;
            let u = shift(alloc, u, from, by)?;
            Ok(Formula::equation(t, u))
        }
        FormulaNode::Atom(s, ts) => {
            let ts = shift_terms(alloc, ts, from, by)?;
            Ok(Formula::atom(*s, ts))
        }
        FormulaNode::Not(f) => {
            let f = shift_formula(alloc, f, from, by)?;
            Formula::not(alloc, f)
        }
        FormulaNode::And(f, g) => {
            let f = shift_formula(alloc, f, from, by)?;
            let g = shift_formula(alloc, g, from, by)?;
            Formula::and(alloc, f, g)
        }
        FormulaNode::All(f) => {
            let inner = from.checked_add(1).ok_or(AllocError)?;
            let f = shift_formula(alloc, f, inner, by)?;
            Formula::all(alloc, f)
        }
    }
}
