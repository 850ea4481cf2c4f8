//! Whether a formula is another with some occurrences of a term replaced, without memory.
ghost use Rattle.std.specs.Prelude.{◌≡◌, ◌↔◌, IsTrue};
ghost use Rattle.mz_logic.specs.Term.{terms_of};
ghost use Rattle.mz_logic.specs.Replacement.{TermReplaced, ArgsReplaced, WithinReplaced, Replaced};

use crate::formula::{Formula, FormulaNode};
use crate::term::{Term, TermNode, Terms};

/// Whether `g` is `f` with some occurrences of `t` replaced by `u`, none included.
pub fn is_replaced(f: &Formula, t: &Term, u: &Term, g: &Formula) -> bool
    ensures { IsTrue result ↔ Replaced t.now u.now f.now g.now }
{
    match (&f.node, &g.node) {
        (FormulaNode::Truth, FormulaNode::Truth) => true,
        (FormulaNode::Eq(a, c), FormulaNode::Eq(b, d)) => {
            is_term_replaced(a, t, u, b) && is_term_replaced(c, t, u, d)
        }
        (FormulaNode::Atom(r, xs), FormulaNode::Atom(s, ys)) => {
            r.is(*s) && are_args_replaced(xs, t, u, ys)
        }
        (FormulaNode::Not(f), FormulaNode::Not(g)) => is_replaced(f, t, u, g),
        (FormulaNode::And(f, h), FormulaNode::And(g, k)) => {
            is_replaced(f, t, u, g) && is_replaced(h, t, u, k)
        }
        (FormulaNode::All(f), FormulaNode::All(g)) => is_replaced(f, t, u, g),
        _ => false,
    }
}

#[cycle(replaced)]
#[tactic(auto, using(crate::proofs::ReplacementLemmas::term_rules))]
fn is_term_replaced(a: &Term, t: &Term, u: &Term, b: &Term) -> bool
    ensures { IsTrue result ↔ TermReplaced t.now u.now a.now b.now }
{
    if a.equals(b) {
        return true;
    }
    if a.equals(t) && b.equals(u) {
        return true;
    }
    is_replaced_within(a, t, u, b)
}

#[cycle(replaced)]
fn is_replaced_within(a: &Term, t: &Term, u: &Term, b: &Term) -> bool
    ensures { IsTrue result ↔ WithinReplaced t.now u.now a.now b.now }
{
    match (&a.node, &b.node) {
        (TermNode::App(r, xs), TermNode::App(s, ys)) => {
            r.is(*s) && are_args_replaced(xs, t, u, ys)
        }
        _ => false,
    }
}

#[cycle(replaced)]
#[tactic(auto, using(crate::proofs::ReplacementLemmas::args_rules))]
fn are_args_replaced(xs: &Terms, t: &Term, u: &Term, ys: &Terms) -> bool
    ensures { IsTrue result ↔ ArgsReplaced t.now u.now (terms_of xs.now) (terms_of ys.now) }
{
    if xs.items.len() != ys.items.len() {
        return false;
    }
    for i in 0..xs.items.len() {
        if !is_term_replaced(&xs.items[i], t, u, &ys.items[i]) {
            return false;
        }
    }
    true
}
