//! How large a term or formula is with terms for its places, by how large these are.
ghost use Rattle.std.specs.Prelude.{◌≡◌, IfOk};
ghost use Rattle.mz_logic.specs.Term.{terms_of};
ghost use Rattle.mz_instance_sizes.specs.Within.{size_or, size_at, sizes_at, size_within};

use crate::size::{Size, leaf, nothing};
use mz_logic::formula::{Formula, FormulaNode};
use mz_logic::term::{Term, TermNode, Terms};
use std::alloc::AllocError;

/// That of the argument for a place; a missing one is a constant.
fn size_or(sizes: &[Size], place: u32) -> Size
    ensures { result ≡ size_or sizes.now place }
{
    match sizes.get(place as usize) {
        Some(x) => *x,
        None => leaf(),
    }
}

/// How large a term below so many binders is, whose further indices are places for arguments of these sizes.
#[cycle(size_at)]
#[tactic(auto, using(crate::proofs::WithinLemmas::term_rules))]
pub fn size_at(t: &Term, sizes: &[Size], depth: u32) -> Size
    ensures { result ≡ size_at sizes.now depth t.now }
{
    match &t.node {
        TermNode::Bound(index) => {
            if *index < depth {
                leaf()
            } else {
                size_or(sizes, *index - depth)
            }
        }
        TermNode::Const(_) => leaf(),
        TermNode::App(_, ts) => sizes_at(ts, sizes, depth).above(),
    }
}

/// The same of terms beside each other.
#[cycle(size_at)]
#[tactic(auto, using(crate::proofs::WithinLemmas::terms_rules))]
pub fn sizes_at(ts: &Terms, sizes: &[Size], depth: u32) -> Size
    ensures { result ≡ sizes_at sizes.now depth (terms_of ts.now) }
{
    let mut out = nothing();
    for t in &ts.items {
        out = out.beside(size_at(t, sizes, depth));
    }
    out
}

/// How large a formula below so many binders is. More than 4,294,967,295 binders are as no memory.
#[cycle(size_within)]
pub fn size_within(f: &Formula, sizes: &[Size], depth: u32) -> Result<Size, AllocError>
    ensures { IfOk result (λ x. x ≡ size_within sizes.now depth f.now) }
{
    match &f.node {
        FormulaNode::Truth => Ok(leaf()),
        FormulaNode::Eq(t, u) => {
            let x = size_at(t, sizes, depth);
            let y = size_at(u, sizes, depth);
            Ok(x.beside(y).above())
        }
        FormulaNode::Atom(_, ts) => Ok(sizes_at(ts, sizes, depth).above()),
        FormulaNode::Not(f) => {
            let x = size_within(f, sizes, depth)?;
            Ok(x.above())
        }
        FormulaNode::And(f, g) => {
            let x = size_within(f, sizes, depth)?;
            let y = size_within(g, sizes, depth)?;
            Ok(x.beside(y).above())
        }
        FormulaNode::All(f) => {
            let inner = depth.checked_add(1).ok_or(AllocError)?;
            let x = size_within(f, sizes, inner)?;
            Ok(x.above())
        }
    }
}
