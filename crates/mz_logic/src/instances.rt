//! Instances of scheme letters.
ghost use Rattle.std.specs.Prelude.{◌≡◌, IfOk, map};
ghost use Rattle.mz_logic.specs.Instance.{term_instance, instance};

use crate::beyond::Beyond;
use crate::formula::{Formula, FormulaNode};
use crate::letters::Letters;
use crate::substitution::{substitute, substitute_formula};
use crate::term::{Term, TermNode, Terms};
use std::alloc::{AllocError, Global};

/// The instance of a formula by letters. An index or a depth above 4,294,967,295 is as no memory.
pub fn instance(alloc: Global, f: &Formula, letters: &Letters) -> Result<Formula, AllocError>
    ensures { IfOk result (λ g. g ≡ instance letters.now f.now) }
{
    match &f.node {
        FormulaNode::Truth => Ok(Formula::truth()),
        FormulaNode::Eq(t, u) => {
            let t = instance_term(alloc, t, letters)?;
            let u = instance_term(alloc, u, letters)?;
            Ok(Formula::equation(t, u))
        }
        FormulaNode::Atom(s, ts) => {
            let ts = instance_terms(alloc, ts, letters)?;
            match letters.formula(*s) {
                None => Ok(Formula::atom(*s, ts)),
                Some(body) => substitute_formula(alloc, body, 0, &ts, Beyond::Zero),
            }
        }
        FormulaNode::Not(f) => {
            let f = instance(alloc, f, letters)?;
            Formula::not(alloc, f)
        }
        FormulaNode::And(f, g) => {
            let f = instance(alloc, f, letters)?;
            let g = instance(alloc, g, letters)?;
            Formula::and(alloc, f, g)
        }
        FormulaNode::All(f) => {
            let f = instance(alloc, f, letters)?;
            Formula::all(alloc, f)
        }
    }
}

#[cycle(instances)]
#[tactic(auto, using(crate::proofs::InstanceLemmas::inst_rules))]
fn instance_term(alloc: Global, t: &Term, letters: &Letters) -> Result<Term, AllocError>
    ensures { IfOk result (λ u. u ≡ term_instance letters.now t.now) }
{
    match &t.node {
        TermNode::Bound(index) => Ok(Term::bound(*index)),
        TermNode::Const(number) => Ok(Term::constant(*number)),
        TermNode::App(s, ts) => {
            let ts = instance_terms(alloc, ts, letters)?;
            match letters.term(*s) {
                None => Ok(Term::apply(*s, ts)),
                Some(body) => substitute(alloc, body, 0, &ts, Beyond::Zero),
            }
        }
    }
}

#[cycle(instances)]
fn instance_terms(alloc: Global, ts: &Terms, letters: &Letters) -> Result<Terms, AllocError>
    ensures { IfOk result (λ us. us ≡ map (term_instance letters.now) ts.now) }
{
    let mut out = Vec::new(alloc);
    for t in &ts.items {
        out.push(instance_term(alloc, t, letters)?)?;
    }
    Ok(Terms { items: out })
}
