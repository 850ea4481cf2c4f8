//! The simultaneous substitution of terms for indices. An index or a depth above 4,294,967,295 is as no
//! memory.
ghost use Rattle.std.specs.Prelude.{◌≡◌, IfOk, map};
ghost use Rattle.mz_logic.specs.Substitution.{substitute, substitute_formula, values_of, body_at};

use crate::beyond::Beyond;
use crate::formula::{Formula, FormulaNode};
use crate::shift::shift;
use crate::term::{Term, TermNode, Terms};
use std::alloc::{AllocError, Global};

/// The term, below `depth` binders, with the values for the indices that these don't bind: value i, from
/// outside them, for index `depth + i`. `beyond` says what stands for an index that has no value.
#[cycle(substitute)]
#[tactic(auto, using(crate::proofs::SubstitutionLaws::substitute_rules, crate::proofs::ValueLaws::value_rules))]
pub fn substitute(
    alloc: Global,
    t: &Term,
    depth: u32,
    values: &Terms,
    beyond: Beyond,
) -> Result<Term, AllocError>
    ensures { IfOk result (λ u. u ≡ substitute depth (values_of beyond values.now) t.now) }
{
    match &t.node {
        TermNode::Bound(index) => {
            if *index < depth {
                return Ok(Term::bound(*index));
            }
            let place = (*index - depth) as usize;
            if place < values.items.len() {
                return shift(alloc, &values.items[place], 0, depth);
            }
            match beyond {
                Beyond::Lowered => Ok(Term::bound(*index - values.items.len() as u32)),
                Beyond::Kept => Ok(Term::bound(*index)),
                Beyond::Zero => Ok(Term::constant(0)),
            }
        }
        TermNode::Const(number) => Ok(Term::constant(*number)),
        TermNode::App(s, ts) => {
            let ts = substitute_terms(alloc, ts, depth, values, beyond)?;
            Ok(Term::apply(*s, ts))
        }
    }
}

/// Each term with the values for its indices.
#[cycle(substitute)]
pub fn substitute_terms(
    alloc: Global,
    ts: &Terms,
    depth: u32,
    values: &Terms,
    beyond: Beyond,
) -> Result<Terms, AllocError>
    ensures { IfOk result (λ us. us ≡ map (substitute depth (values_of beyond values.now)) ts.now) }
{
    let mut out = Vec::new(alloc);
    for t in &ts.items {
        out.push(substitute(alloc, t, depth, values, beyond)?)?;
    }
    Ok(Terms { items: out })
}

/// The formula, below `depth` binders, with the values for the indices that neither these nor its own
/// binders bind.
pub fn substitute_formula(
    alloc: Global,
    f: &Formula,
    depth: u32,
    values: &Terms,
    beyond: Beyond,
) -> Result<Formula, AllocError>
    ensures { IfOk result (λ g. g ≡ substitute_formula depth (values_of beyond values.now) f.now) }
{
    match &f.node {
        FormulaNode::Truth => Ok(Formula::truth()),
        FormulaNode::Eq(t, u) => {
            let t = substitute(alloc, t, depth, values, beyond)?;
            let u = substitute(alloc, u, depth, values, beyond)?;
            Ok(Formula::equation(t, u))
        }
        FormulaNode::Atom(s, ts) => {
            let ts = substitute_terms(alloc, ts, depth, values, beyond)?;
            Ok(Formula::atom(*s, ts))
        }
        FormulaNode::Not(f) => {
            let f = substitute_formula(alloc, f, depth, values, beyond)?;
            Formula::not(alloc, f)
        }
        FormulaNode::And(f, g) => {
            let f = substitute_formula(alloc, f, depth, values, beyond)?;
            let g = substitute_formula(alloc, g, depth, values, beyond)?;
            Formula::and(alloc, f, g)
        }
        FormulaNode::All(f) => {
            let inner = depth.checked_add(1).ok_or(AllocError)?;
            let f = substitute_formula(alloc, f, inner, values, beyond)?;
            Formula::all(alloc, f)
        }
    }
}

/// The body of a quantifier at `t`: `t` stands for the quantifier's own index, and the indices of binders
/// outside it are lowered by one.
pub fn body_at(alloc: Global, body: &Formula, t: &Term) -> Result<Formula, AllocError>
    ensures { IfOk result (λ f. f ≡ body_at body.now t.now) }
{
    let mut values = Terms::new(alloc);
    values.push(t.copy(alloc)?)?;
    substitute_formula(alloc, body, 0, &values, Beyond::Lowered)
}
