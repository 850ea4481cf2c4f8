//! Whether a formula is the body of a quantifier at a term, without memory.
ghost use Rattle.std.specs.Prelude.{◌≡◌, ◌↔◌, ◌+◌, ◌<◌, ◌^◌, IsTrue, map};
ghost use Rattle.mz_logic.specs.FormulaStorage.{binders_of};
ghost use Rattle.mz_logic.specs.Term.{Bound};
ghost use Rattle.mz_logic.specs.Substitution.{shift, substitute, substitute_formula, body_at};
ghost use Rattle.mz_logic.specs.BodyTest.{at_one};

use crate::formula::{Formula, FormulaNode};
use crate::term::{Term, TermNode, Terms};

/// Whether `f` is the body of a quantifier at `t`.
#[tactic(auto, unfolding(crate::specs::BodyTest::at_one))]
pub fn is_body_at(f: &Formula, body: &Formula, t: &Term) -> bool
    ensures { IsTrue result ↔ (f.now ≡ body_at body.now t.now) }
{
    let _binders = body.binders;
    is_formula_at(body, 0, t, f)
}

fn is_formula_at(f: &Formula, depth: u32, t: &Term, g: &Formula) -> bool
    requires { depth + binders_of f.now < 2 ^ 32 }
    ensures { IsTrue result ↔ (substitute_formula depth (at_one t.now) f.now ≡ g.now) }
{
    match (&f.node, &g.node) {
        (FormulaNode::Truth, FormulaNode::Truth) => true,
        (FormulaNode::Eq(u, v), FormulaNode::Eq(w, x)) => {
            is_term_at(u, depth, t, w) && is_term_at(v, depth, t, x)
        }
        (FormulaNode::Atom(r, us), FormulaNode::Atom(s, vs)) => {
            r.is(*s) && are_terms_at(us, depth, t, vs)
        }
        (FormulaNode::Not(f), FormulaNode::Not(g)) => is_formula_at(f, depth, t, g),
        (FormulaNode::And(f, h), FormulaNode::And(g, k)) => {
            is_formula_at(f, depth, t, g) && is_formula_at(h, depth, t, k)
        }
        (FormulaNode::All(f), FormulaNode::All(g)) => is_formula_at(f, depth + 1, t, g),
        _ => false,
    }
}

#[cycle(substitute)]
#[tactic(auto, using(crate::proofs::SubstitutionLaws::substitute_rules, crate::proofs::BodyLemmas::one_rules, crate::proofs::TermLemmas::term_rules))]
fn is_term_at(u: &Term, depth: u32, t: &Term, v: &Term) -> bool
    ensures { IsTrue result ↔ (substitute depth (at_one t.now) u.now ≡ v.now) }
{
    match &u.node {
        TermNode::Bound(n) => {
            if *n < depth {
                v.is_bound(*n)
            } else if *n == depth {
                is_shifted(t, depth, v)
            } else {
                v.is_bound(*n - 1)
            }
        }
        TermNode::Const(n) => v.is_const(*n),
        TermNode::App(r, us) => match &v.node {
            TermNode::App(s, vs) => r.is(*s) && are_terms_at(us, depth, t, vs),
            _ => false,
        },
    }
}

#[cycle(substitute)]
fn are_terms_at(us: &Terms, depth: u32, t: &Term, vs: &Terms) -> bool
    ensures { IsTrue result ↔ (map (substitute depth (at_one t.now)) us.now ≡ vs.now) }
{
    if us.items.len() != vs.items.len() {
        return false;
    }
    for i in 0..us.items.len() {
        if !is_term_at(&us.items[i], depth, t, &vs.items[i]) {
            return false;
        }
    }
    true
}

/// Whether `v` is `t` with `by` more binders outside it.
#[cycle(shifted)]
#[tactic(auto, using(crate::proofs::ShiftLaws::shift_rules, crate::proofs::ShiftLaws::index_rules, crate::proofs::TermLemmas::term_rules))]
fn is_shifted(t: &Term, by: u32, v: &Term) -> bool
    ensures { IsTrue result ↔ (shift 0 by t.now ≡ v.now) }
{
    match &t.node {
        TermNode::Bound(index) => is_bound_above(v, *index, by),
        TermNode::Const(number) => v.is_const(*number),
        TermNode::App(r, ts) => match &v.node {
            TermNode::App(s, vs) => r.is(*s) && are_shifted(ts, by, vs),
            _ => false,
        },
    }
}

#[cycle(shifted)]
fn are_shifted(ts: &Terms, by: u32, vs: &Terms) -> bool
    ensures { IsTrue result ↔ (map (shift 0 by) ts.now ≡ vs.now) }
{
    if ts.items.len() != vs.items.len() {
        return false;
    }
    for i in 0..ts.items.len() {
        if !is_shifted(&ts.items[i], by, &vs.items[i]) {
            return false;
        }
    }
    true
}

/// Whether `v` is the index `index + by`.
pub fn is_bound_above(v: &Term, index: u32, by: u32) -> bool
    ensures { IsTrue result ↔ (Bound (index + by) ≡ v.now) }
{
    match &v.node {
        TermNode::Bound(n) => *n as u64 == index as u64 + by as u64,
        _ => false,
    }
}
