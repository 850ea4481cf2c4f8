//! Whether a formula is the instance of another by letters, without memory.
ghost use Rattle.std.specs.Prelude.{◌≡◌, ◌↔◌, ◌+◌, ◌<◌, ◌≤◌, ◌^◌, IsTrue, map};
ghost use Rattle.mz_logic.specs.TermStorage.{size_of, sizes_of};
ghost use Rattle.mz_logic.specs.FormulaStorage.{binders_of};
ghost use Rattle.mz_logic.specs.Formula.{Atom};
ghost use Rattle.mz_logic.specs.Substitution.{substitute, substitute_formula, argument_at};
ghost use Rattle.mz_logic.specs.Instance.{term_instance, instance};
ghost use Rattle.mz_logic.specs.InstanceTest.{shifted_instance, term_at_by, terms_size, bodies_size};

use crate::bodies::is_bound_above;
use crate::formula::{Formula, FormulaNode};
use crate::letters::Letters;
use crate::sym::Sym;
use crate::term::{Term, TermNode, Terms};

/// Whether `g` is the instance of `f` by letters.
pub fn is_instance(f: &Formula, letters: &Letters, g: &Formula) -> bool
    ensures { IsTrue result ↔ (instance letters.now f.now ≡ g.now) }
{
    match (&f.node, &g.node) {
        (FormulaNode::Atom(s, ts), _) => is_atom_instance(*s, ts, letters, g),
        (FormulaNode::Truth, FormulaNode::Truth) => true,
        (FormulaNode::Eq(t, u), FormulaNode::Eq(v, w)) => {
            is_term_instance(t, letters, v) && is_term_instance(u, letters, w)
        }
        (FormulaNode::Not(f), FormulaNode::Not(g)) => is_instance(f, letters, g),
        (FormulaNode::And(f, h), FormulaNode::And(g, k)) => {
            is_instance(f, letters, g) && is_instance(h, letters, k)
        }
        (FormulaNode::All(f), FormulaNode::All(g)) => is_instance(f, letters, g),
        _ => false,
    }
}

#[tactic(auto, using(crate::proofs::InstanceTestLemmas::formula_rules))]
fn is_atom_instance(s: Sym, ts: &Terms, letters: &Letters, g: &Formula) -> bool
    ensures { IsTrue result ↔ (instance letters.now (Atom s ts.now) ≡ g.now) }
{
    match letters.formula(s) {
        None => match &g.node {
            FormulaNode::Atom(r, us) => s.is(*r) && are_term_instances(ts, letters, us),
            _ => false,
        },
        Some(body) => {
            let _binders = body.binders;
            is_formula_at(body, 0, ts, letters, g)
        }
    }
}

fn is_formula_at(body: &Formula, depth: u32, args: &Terms, letters: &Letters, g: &Formula) -> bool
    requires depth { depth + binders_of body.now < 2 ^ 32 }
    requires size { terms_size body.now ≤ bodies_size letters.now }
    ensures { IsTrue result ↔ (substitute_formula depth (argument_at (map (term_instance letters.now) args.now)) body.now ≡ g.now) }
{
    match (&body.node, &g.node) {
        (FormulaNode::Truth, FormulaNode::Truth) => true,
        (FormulaNode::Eq(t, u), FormulaNode::Eq(v, w)) => {
            is_term_at(t, depth, args, letters, v) && is_term_at(u, depth, args, letters, w)
        }
        (FormulaNode::Atom(r, ts), FormulaNode::Atom(s, us)) => {
            r.is(*s) && are_terms_at(ts, depth, args, letters, us)
        }
        (FormulaNode::Not(f), FormulaNode::Not(g)) => is_formula_at(f, depth, args, letters, g),
        (FormulaNode::And(f, h), FormulaNode::And(g, k)) => {
            is_formula_at(f, depth, args, letters, g) && is_formula_at(h, depth, args, letters, k)
        }
        (FormulaNode::All(f), FormulaNode::All(g)) => is_formula_at(f, depth + 1, args, letters, g),
        _ => false,
    }
}

#[tactic(auto, using(crate::proofs::InstanceTestLemmas::substitute_rules))]
fn is_term_at(t: &Term, depth: u32, args: &Terms, letters: &Letters, v: &Term) -> bool
    requires { size_of t.now ≤ bodies_size letters.now }
    ensures { IsTrue result ↔ (substitute depth (argument_at (map (term_instance letters.now) args.now)) t.now ≡ v.now) }
{
    is_term_at_by(t, depth, depth, args, letters, v)
}

#[tactic(auto, using(crate::proofs::InstanceTestLemmas::substitute_rules))]
fn are_terms_at(ts: &Terms, depth: u32, args: &Terms, letters: &Letters, vs: &Terms) -> bool
    requires { sizes_of ts.now ≤ bodies_size letters.now }
    ensures { IsTrue result ↔ (map (substitute depth (argument_at (map (term_instance letters.now) args.now))) ts.now ≡ vs.now) }
{
    are_terms_at_by(ts, depth, depth, args, letters, vs)
}

#[tactic(auto, using(crate::proofs::InstanceTestLemmas::shift_rules))]
fn is_term_instance(t: &Term, letters: &Letters, v: &Term) -> bool
    ensures { IsTrue result ↔ (term_instance letters.now t.now ≡ v.now) }
{
    is_shifted_instance(t, letters, 0, v)
}

#[tactic(auto, using(crate::proofs::InstanceTestLemmas::shift_rules))]
fn are_term_instances(ts: &Terms, letters: &Letters, vs: &Terms) -> bool
    ensures { IsTrue result ↔ (map (term_instance letters.now) ts.now ≡ vs.now) }
{
    are_shifted_instances(ts, letters, 0, vs)
}

#[cycle(shifted)]
#[tactic(auto, using(crate::proofs::InstanceTestLemmas::instance_rules))]
fn is_shifted_instance(t: &Term, letters: &Letters, by: u32, v: &Term) -> bool
    ensures { IsTrue result ↔ (shifted_instance letters.now by t.now ≡ v.now) }
{
    match &t.node {
        TermNode::Bound(index) => is_bound_above(v, *index, by),
        TermNode::Const(number) => v.is_const(*number),
        TermNode::App(s, ts) => match letters.term(*s) {
            None => match &v.node {
                TermNode::App(r, vs) => s.is(*r) && are_shifted_instances(ts, letters, by, vs),
                _ => false,
            },
            Some(body) => is_term_at_by(body, 0, by, ts, letters, v),
        },
    }
}

#[cycle(shifted)]
#[tactic(auto, using(crate::proofs::InstanceTestLemmas::list_rules))]
fn are_shifted_instances(ts: &Terms, letters: &Letters, by: u32, vs: &Terms) -> bool
    ensures { IsTrue result ↔ (map (shifted_instance letters.now by) ts.now ≡ vs.now) }
{
    if ts.items.len() != vs.items.len() {
        return false;
    }
    for i in 0..ts.items.len() {
        if !is_shifted_instance(&ts.items[i], letters, by, &vs.items[i]) {
            return false;
        }
    }
    true
}

#[cycle(shifted)]
#[tactic(auto, using(crate::proofs::InstanceTestLemmas::term_rules))]
fn is_term_at_by(t: &Term, inner: u32, by: u32, args: &Terms, letters: &Letters, v: &Term) -> bool
    requires { size_of t.now ≤ bodies_size letters.now }
    ensures { IsTrue result ↔ (term_at_by inner by (map (term_instance letters.now) args.now) t.now ≡ v.now) }
{
    match &t.node {
        TermNode::Bound(index) => {
            if *index < inner {
                return v.is_bound(*index);
            }
            let place = (*index - inner) as usize;
            if place < args.items.len() {
                is_shifted_instance(&args.items[place], letters, by, v)
            } else {
                v.is_const(0)
            }
        }
        TermNode::Const(number) => v.is_const(*number),
        TermNode::App(r, ts) => match &v.node {
            TermNode::App(s, vs) => r.is(*s) && are_terms_at_by(ts, inner, by, args, letters, vs),
            _ => false,
        },
    }
}

#[cycle(shifted)]
fn are_terms_at_by(
    ts: &Terms,
    inner: u32,
    by: u32,
    args: &Terms,
    letters: &Letters,
    vs: &Terms,
) -> bool
    requires { sizes_of ts.now ≤ bodies_size letters.now }
    ensures { IsTrue result ↔ (map (term_at_by inner by (map (term_instance letters.now) args.now)) ts.now ≡ vs.now) }
{
    if ts.items.len() != vs.items.len() {
        return false;
    }
    for i in 0..ts.items.len() {
        if !is_term_at_by(&ts.items[i], inner, by, args, letters, &vs.items[i]) {
            return false;
        }
    }
    true
}
