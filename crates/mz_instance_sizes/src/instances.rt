//! How large the instances by letters are.
ghost use Rattle.std.specs.Prelude.{◌≡◌, map, IfOk};
ghost use Rattle.mz_logic.specs.Instance.{term_instance, instance};
ghost use Rattle.mz_sizes.specs.Sizes.{term_keeps};
ghost use Rattle.mz_instance_sizes.specs.Sizes.{all_beside, formula_keeps};
ghost use Rattle.mz_instance_sizes.specs.Instances.{instance_size, instance_within};

use crate::size::{Size, leaf, nothing};
use crate::within::{size_at, size_within};
use mz_logic::formula::{Formula, FormulaNode};
use mz_logic::letters::Letters;
use mz_logic::term::{Term, TermNode, Terms};
use std::alloc::{AllocError, Global};

#[tactic(auto, using(crate::proofs::BesideLemmas::beside_rules))]
pub(crate) fn all_beside(sizes: &[Size]) -> Size
    ensures { result ≡ all_beside sizes.now }
{
    let mut out = nothing();
    let mut rest = sizes;
    while let Some((x, others)) = rest.split_first() {
        out = out.beside(*x);
        rest = others;
    }
    out
}

/// How large the instance of a term by letters is.
#[cycle(instance_size)]
#[tactic(auto, using(crate::proofs::InstanceLemmas::list_rules))]
pub fn instance_size(alloc: Global, t: &Term, letters: &Letters) -> Result<Size, AllocError>
    ensures { IfOk result (λ x. x ≡ instance_size letters.now t.now) }
{
    match &t.node {
        TermNode::Bound(_) => Ok(leaf()),
        TermNode::Const(_) => Ok(leaf()),
        TermNode::App(s, ts) => {
            let sizes = instance_sizes(alloc, ts, letters)?;
            match letters.term(*s) {
                None => Ok(all_beside(sizes.as_slice()).above()),
                Some(body) => Ok(size_at(body, sizes.as_slice(), 0)),
            }
        }
    }
}

#[cycle(instance_size)]
pub(crate) fn instance_sizes(
    alloc: Global,
    ts: &Terms,
    letters: &Letters,
) -> Result<Vec<Size>, AllocError>
    ensures { IfOk result (λ xs. xs.items ≡ map (instance_size letters.now) ts.now) }
{
    let mut out = Vec::new(alloc);
    for t in &ts.items {
        out.push(instance_size(alloc, t, letters)?)?;
    }
    Ok(out)
}

/// How large the instance of a formula by letters is.
#[cycle(instance_within)]
#[tactic(auto, using(crate::proofs::InstanceLemmas::list_rules))]
pub fn instance_within(alloc: Global, f: &Formula, letters: &Letters) -> Result<Size, AllocError>
    ensures { IfOk result (λ x. x ≡ instance_within letters.now f.now) }
{
    match &f.node {
        FormulaNode::Truth => Ok(leaf()),
        FormulaNode::Eq(t, u) => {
            let x = instance_size(alloc, t, letters)?;
            let y = instance_size(alloc, u, letters)?;
            Ok(x.beside(y).above())
        }
        FormulaNode::Atom(s, ts) => {
            let sizes = instance_sizes(alloc, ts, letters)?;
            match letters.formula(*s) {
                None => Ok(all_beside(sizes.as_slice()).above()),
                Some(body) => size_within(body, sizes.as_slice(), 0),
            }
        }
        FormulaNode::Not(f) => {
            let x = instance_within(alloc, f, letters)?;
            Ok(x.above())
        }
        FormulaNode::And(f, g) => {
            let x = instance_within(alloc, f, letters)?;
            let y = instance_within(alloc, g, letters)?;
            Ok(x.beside(y).above())
        }
        FormulaNode::All(f) => {
            let x = instance_within(alloc, f, letters)?;
            Ok(x.above())
        }
    }
}

/// Whether the instance of the term by letters is within the limits of an expression. It isn't made.
#[tactic(auto, using(crate::proofs::InstanceLemmas::keep_rules))]
pub fn is_term_kept(alloc: Global, t: &Term, letters: &Letters) -> Result<bool, AllocError>
    ensures { IfOk result (λ b. b ≡ term_keeps (term_instance letters.now t.now)) }
{
    let x = instance_size(alloc, t, letters)?;
    Ok(x.is_kept())
}

/// Whether the instance of the formula by letters is within the limits of an expression. It isn't made.
#[tactic(auto, using(crate::proofs::InstanceLemmas::keep_rules))]
pub fn is_instance_kept(alloc: Global, f: &Formula, letters: &Letters) -> Result<bool, AllocError>
    ensures { IfOk result (λ b. b ≡ formula_keeps (instance letters.now f.now)) }
{
    let x = instance_within(alloc, f, letters)?;
    Ok(x.is_kept())
}
