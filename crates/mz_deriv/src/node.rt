//! The check of one node of a derivation, rule by rule.
ghost use Rattle.std.specs.Prelude.{◌≡◌, ◌↔◌, ◌∷◌, ◌≤◌, ◌-◌, IsTrue, [], true, false, map, slice_get, Some};
ghost use Rattle.std.specs.List.{list_any};
ghost use Rattle.mz_logic.specs.Constants.{occurs_in_formula};
ghost use Rattle.mz_logic.specs.Derives.{FollowsBy, Gives, GivesFrom};
ghost use Rattle.mz_logic.specs.Forms.{IfAll, IfAnd, IfEq, IfNot};
ghost use Rattle.mz_logic.specs.Formula.{Not, Truth};
ghost use Rattle.mz_logic.specs.Indices.{closed};
ghost use Rattle.mz_logic.specs.Instance.{instance};
ghost use Rattle.mz_logic.specs.Negation.{falsity};
ghost use Rattle.mz_logic.specs.Replacement.{Replaced};
ghost use Rattle.mz_logic.specs.Substitution.{body_at};
ghost use Rattle.mz_logic.specs.Term.{Const};

use mz_logic::bodies::is_body_at;
use mz_logic::formula::{Formula, FormulaNode};
use mz_logic::formulas::Formulas;
use mz_logic::instance_check::is_instance;
use mz_logic::letters::Letters;
use mz_logic::replacement::is_replaced;
use mz_logic::rule::Rule;
use mz_logic::sequent::Sequent;
use mz_logic::sequents::Sequents;
use mz_logic::term::Term;

/// Whether the conclusion follows by the rule from its parents, in their order, where the axioms are
/// numbered from 1. Only what the rule itself asks is tested: a formula with a free index passes
/// where the rule holds of it. Nothing is built. Formulas and terms are walked by recursion.
#[tactic(auto, using(crate::proofs::NodeLemmas::parent_rules))]
pub fn right_node(axioms: &Formulas, rule: &Rule, conclusion: &Sequent, parents: &Sequents) -> bool
    ensures { IsTrue result ↔ FollowsBy axioms.now rule.now conclusion.now parents.now }
{
    match parents.items.as_slice() {
        [] => follows_alone(axioms, rule, conclusion),
        [p] => follows_from_one(axioms, rule, conclusion, p),
        [p, q] => follows_from_two(axioms, rule, conclusion, p, q),
        _ => false,
    }
}

/// Whether the sequent follows by the rule from no parent.
pub fn follows_alone(axioms: &Formulas, rule: &Rule, s: &Sequent) -> bool
    ensures { IsTrue result ↔ FollowsBy axioms.now rule.now s.now [] }
{
    match rule {
        Rule::Hypothesis => s.premises.contains(&s.conclusion),
        Rule::Truth => is_truth(&s.conclusion),
        Rule::Reflexive => is_reflexive(&s.conclusion),
        Rule::Axiom(number) => is_axiom(axioms, *number, &s.conclusion),
        _ => false,
    }
}

/// Whether the sequent follows by the rule from one parent.
pub fn follows_from_one(axioms: &Formulas, rule: &Rule, s: &Sequent, p: &Sequent) -> bool
    ensures { IsTrue result ↔ FollowsBy axioms.now rule.now s.now (p.now ∷ []) }
{
    match rule {
        Rule::Weaken => { p.premises.are_within(&s.premises) && p.conclusion.equals(&s.conclusion) }
        Rule::AndLeft => {
            p.premises.equals(&s.premises) && has_left(&p.conclusion, &s.conclusion)
        }
        Rule::AndRight => {
            p.premises.equals(&s.premises) && has_right(&p.conclusion, &s.conclusion)
        }
        Rule::NotIn => is_refuted(s, p),
        Rule::Classical => is_classical(s, p),
        Rule::AllIn(constant) => is_general(s, p, *constant),
        Rule::AllOut(t) => {
            p.premises.equals(&s.premises)
                && has_body_at(&p.conclusion, t, &s.conclusion)
                && t.is_closed()
        }
        Rule::Instance(letters) => {
            are_instances(&p.premises, letters, &s.premises)
                && is_instance(&p.conclusion, letters, &s.conclusion)
        }
        _ => false,
    }
}

/// Whether the sequent follows by the rule from two parents.
pub fn follows_from_two(
    axioms: &Formulas,
    rule: &Rule,
    s: &Sequent,
    p: &Sequent,
    q: &Sequent,
) -> bool
    ensures { IsTrue result ↔ FollowsBy axioms.now rule.now s.now (p.now ∷ q.now ∷ []) }
{
    match rule {
        Rule::AndIn => is_conjunction(s, p, q),
        Rule::NotOut => gives(s, p, &p.conclusion) && gives_negation(s, q, &p.conclusion),
        Rule::Replace => {
            p.premises.equals(&s.premises)
                && q.premises.equals(&s.premises)
                && replaces(&p.conclusion, &q.conclusion, &s.conclusion)
        }
        Rule::Cut => gives(s, p, &p.conclusion) && gives_from(s, &p.conclusion, q, &s.conclusion),
        _ => false,
    }
}

fn is_truth(f: &Formula) -> bool
    ensures { IsTrue result ↔ (f.now ≡ Truth) }
{
    match &f.node {
        FormulaNode::Truth => true,
        _ => false,
    }
}

fn is_falsity(f: &Formula) -> bool
    ensures { IsTrue result ↔ (f.now ≡ falsity) }
{
    match &f.node {
        FormulaNode::Not(g) => is_truth(g),
        _ => false,
    }
}

fn is_reflexive(f: &Formula) -> bool
    ensures { IsTrue result ↔ IfEq f.now (λ t u. (t ≡ u) × (closed t ≡ true)) }
{
    match &f.node {
        FormulaNode::Eq(t, u) => t.equals(u) && t.is_closed(),
        _ => false,
    }
}

fn is_axiom(axioms: &Formulas, number: u32, f: &Formula) -> bool
    ensures { IsTrue result ↔ ((1 ≤ number) × (slice_get axioms.now (number - 1) ≡ Some f.now)) }
{
    if number == 0 {
        return false;
    }
    let index = (number - 1) as usize;
    if index >= axioms.items.len() {
        return false;
    }
    axioms.items[index].equals(f)
}

#[tactic(auto, unfolding(mz_logic::specs::Derives::Gives))]
fn gives(s: &Sequent, p: &Sequent, f: &Formula) -> bool
    ensures { IsTrue result ↔ Gives s.now p.now f.now }
{
    p.premises.equals(&s.premises) && p.conclusion.equals(f)
}

#[tactic(auto, unfolding(mz_logic::specs::Derives::Gives))]
fn gives_negation(s: &Sequent, p: &Sequent, f: &Formula) -> bool
    ensures { IsTrue result ↔ Gives s.now p.now (Not f.now) }
{
    p.premises.equals(&s.premises) && p.conclusion.is_negation_of(f)
}

#[tactic(auto, unfolding(mz_logic::specs::Derives::GivesFrom))]
fn gives_from(s: &Sequent, h: &Formula, p: &Sequent, f: &Formula) -> bool
    ensures { IsTrue result ↔ GivesFrom s.now h.now p.now f.now }
{
    p.premises.is_cons(h, &s.premises) && p.conclusion.equals(f)
}

#[tactic(auto, unfolding(mz_logic::specs::Derives::GivesFrom))]
fn gives_falsity_from(s: &Sequent, h: &Formula, p: &Sequent) -> bool
    ensures { IsTrue result ↔ GivesFrom s.now h.now p.now falsity }
{
    p.premises.is_cons(h, &s.premises) && is_falsity(&p.conclusion)
}

fn has_left(f: &Formula, g: &Formula) -> bool
    ensures { IsTrue result ↔ IfAnd f.now (λ a b. a ≡ g.now) }
{
    match &f.node {
        FormulaNode::And(a, _) => a.equals(g),
        _ => false,
    }
}

fn has_right(f: &Formula, g: &Formula) -> bool
    ensures { IsTrue result ↔ IfAnd f.now (λ a b. b ≡ g.now) }
{
    match &f.node {
        FormulaNode::And(_, b) => b.equals(g),
        _ => false,
    }
}

fn is_refuted(s: &Sequent, p: &Sequent) -> bool
    ensures { IsTrue result ↔ IfNot s.now.conclusion (λ f. GivesFrom s.now f p.now falsity) }
{
    match &s.conclusion.node {
        FormulaNode::Not(f) => gives_falsity_from(s, f, p),
        _ => false,
    }
}

#[tactic(auto, unfolding(mz_logic::specs::Derives::GivesFrom))]
fn is_classical(s: &Sequent, p: &Sequent) -> bool
    ensures { IsTrue result ↔ GivesFrom s.now (Not s.now.conclusion) p.now falsity }
{
    p.premises.is_negation_cons(&s.conclusion, &s.premises) && is_falsity(&p.conclusion)
}

#[tactic(auto, unfolding(mz_logic::specs::Derives::Gives))]
fn is_general(s: &Sequent, p: &Sequent, c: u32) -> bool
    ensures { IsTrue result ↔ IfAll s.now.conclusion (λ b. Gives s.now p.now (body_at b (Const c)) × (list_any (occurs_in_formula c) s.now.premises ≡ false) × (occurs_in_formula c b ≡ false)) }
{
    match &s.conclusion.node {
        FormulaNode::All(b) => {
            p.premises.equals(&s.premises)
                && is_body_at(&p.conclusion, b, &Term::constant(c))
                && !s.premises.have_constant(c)
                && !b.has_constant(c)
        }
        _ => false,
    }
}

fn has_body_at(f: &Formula, t: &Term, g: &Formula) -> bool
    ensures { IsTrue result ↔ IfAll f.now (λ b. body_at b t.now ≡ g.now) }
{
    match &f.node {
        FormulaNode::All(b) => is_body_at(g, b, t),
        _ => false,
    }
}

fn is_conjunction(s: &Sequent, p: &Sequent, q: &Sequent) -> bool
    ensures { IsTrue result ↔ IfAnd s.now.conclusion (λ f g. Gives s.now p.now f × Gives s.now q.now g) }
{
    match &s.conclusion.node {
        FormulaNode::And(f, g) => gives(s, p, f) && gives(s, q, g),
        _ => false,
    }
}

fn replaces(equation: &Formula, f: &Formula, g: &Formula) -> bool
    ensures { IsTrue result ↔ IfEq equation.now (λ t u. (closed t ≡ true) × (closed u ≡ true) × Replaced t u f.now g.now) }
{
    match &equation.node {
        FormulaNode::Eq(t, u) => t.is_closed() && u.is_closed() && is_replaced(f, t, u, g),
        _ => false,
    }
}

fn are_instances(fs: &Formulas, letters: &Letters, gs: &Formulas) -> bool
    ensures { IsTrue result ↔ (map (instance letters.now) fs.now ≡ gs.now) }
{
    if fs.items.len() != gs.items.len() {
        return false;
    }
    for i in 0..fs.items.len() {
        if !is_instance(&fs.items[i], letters, &gs.items[i]) {
            return false;
        }
    }
    true
}
