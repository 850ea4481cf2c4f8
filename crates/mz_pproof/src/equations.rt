//! Which statements may have further sides of an iterative equality.
ghost use Rattle.std.specs.Prelude.{◌≡◌};
ghost use Rattle.mz_tree.specs.Views.{conjunction_of, disjunction_of, terms_of, unit_of};
ghost use Rattle.mz_tree_proof.specs.RulesReasoning.{is_plain_equation, is_simple};
ghost use Rattle.mz_patom.specs.Forms.{is_single};
ghost use Rattle.mz_pproof.specs.Equations.{equates, is_equation, is_only_equation, is_plain};
ghost use Rattle.mz_pproof.specs.Forms.{may_continue};

use crate::look::spells;
use mz_tree::expressions::FormulaTree;
use mz_tree::nodes::{ConjunctionNode, DisjunctionNode, FormulaNode, TermsNode, UnitNode};
use mz_tree::word::Word;
use mz_tree_proof::reasoning::{JustNode, JustTree};

fn is_single(terms: &TermsNode) -> bool
    ensures { result ≡ is_single (terms_of terms.now) }
{
    if !terms.more.is_empty() {
        return false;
    }
    true
}

/// Whether it is one term on each side of `=`.
fn equates(left: &TermsNode, symbol: &Word, right: &TermsNode) -> bool
    ensures { result ≡ equates (terms_of left.now) symbol.now (terms_of right.now) }
{
    if !is_single(left) {
        return false;
    }
    if !is_single(right) {
        return false;
    }
    spells(symbol.spelling.as_slice(), b"=")
}

#[tactic(auto, using(mz_tree::proofs::Views::unit_rules))]
fn is_equation(unit: &UnitNode) -> bool
    ensures { result ≡ is_equation (unit_of unit.now) }
{
    match unit {
        UnitNode::Not(_, _) => false,
        UnitNode::Contradiction(_) => false,
        UnitNode::Thesis(_) => false,
        UnitNode::Quantified(_) => false,
        UnitNode::Group(_, _, _) => false,
        UnitNode::Private(_, _, _) => false,
        UnitNode::PrivateWith(_, _, _, _) => false,
        UnitNode::Predicate(_) => false,
        UnitNode::PredicateRight(_, _) => false,
        UnitNode::PredicateLeft(_, _) => false,
        UnitNode::PredicateBoth(left, symbol, right) => equates(left, symbol, right),
        UnitNode::IsType(_, _, _) => false,
        UnitNode::IsAdjectives(_, _, _, _) => false,
    }
}

fn is_only_equation(conjunction: &ConjunctionNode) -> bool
    ensures { result ≡ is_only_equation (conjunction_of conjunction.now) }
{
    if !conjunction.more.is_empty() {
        return false;
    }
    is_equation(&*conjunction.first)
}

fn is_plain(disjunction: &DisjunctionNode) -> bool
    ensures { result ≡ is_plain (disjunction_of disjunction.now) }
{
    if !disjunction.more.is_empty() {
        return false;
    }
    is_only_equation(&disjunction.first)
}

/// Whether it is one equation of two terms, without parentheses.
#[tactic(auto, using(mz_tree::proofs::Views::formula_rules, crate::proofs::PlainEquations::plain_same))]
fn is_plain_equation(formula: &FormulaTree) -> bool
    ensures { result ≡ is_plain_equation formula.now }
{
    match formula.node() {
        FormulaNode::Plain(disjunction) => is_plain(disjunction),
        FormulaNode::Implies(_, _, _) => false,
        FormulaNode::Iff(_, _, _) => false,
    }
}

/// Whether it is a justification without a proof.
fn is_simple(tree: &JustTree) -> bool
    ensures { result ≡ is_simple tree.now }
{
    match &tree.node {
        JustNode::Simple(_) => true,
        JustNode::Proof(_, _, _) => false,
    }
}

/// Whether further sides of an iterative equality may stand behind a formula with this justification.
pub fn may_continue(formula: &FormulaTree, just: &JustTree) -> bool
    ensures { result ≡ may_continue formula.now just.now }
{
    if !is_plain_equation(formula) {
        return false;
    }
    is_simple(just)
}
