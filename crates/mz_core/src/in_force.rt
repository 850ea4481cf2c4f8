//! Whether all constants are below a number.
ghost use Rattle.std.specs.Prelude.{◌≡◌};
ghost use Rattle.std.specs.List.{list_all};
ghost use Rattle.mz_core.specs.InForce.{term_in_force, formula_in_force, adjective_in_force, type_in_force, statement_in_force};

use crate::adjective::Adjective;
use crate::adjectives::Adjectives;
use crate::soft_type::SoftType;
use crate::statement::{Statement, StatementNode};
use mz_logic::formula::{Formula, FormulaNode};
use mz_logic::formulas::Formulas;
use mz_logic::term::{Term, TermNode, Terms};

/// Whether each constant of the term is below `next`.
#[cycle(in_force)]
#[tactic(auto, using(crate::proofs::InForceLemmas::in_force_rules))]
pub fn term_in_force(t: &Term, next: u32) -> bool
    ensures { result ≡ term_in_force next t.now }
{
    match &t.node {
        TermNode::Bound(_) => true,
        TermNode::Const(number) => *number < next,
        TermNode::App(_, ts) => terms_in_force(ts, next),
    }
}

/// The same of each term.
#[cycle(in_force)]
pub fn terms_in_force(ts: &Terms, next: u32) -> bool
    ensures { result ≡ list_all (term_in_force next) ts.now }
{
    for t in &ts.items {
        if !term_in_force(t, next) {
            return false;
        }
    }
    true
}

/// Whether each constant of the formula is below `next`.
pub fn formula_in_force(f: &Formula, next: u32) -> bool
    ensures { result ≡ formula_in_force next f.now }
{
    match &f.node {
        FormulaNode::Truth => true,
        FormulaNode::Eq(t, u) => term_in_force(t, next) && term_in_force(u, next),
        FormulaNode::Atom(_, ts) => terms_in_force(ts, next),
        FormulaNode::Not(f) => formula_in_force(f, next),
        FormulaNode::And(f, g) => formula_in_force(f, next) && formula_in_force(g, next),
        FormulaNode::All(f) => formula_in_force(f, next),
    }
}

/// The same of each formula.
pub fn formulas_in_force(fs: &Formulas, next: u32) -> bool
    ensures { result ≡ list_all (formula_in_force next) fs.now }
{
    for f in &fs.items {
        if !formula_in_force(f, next) {
            return false;
        }
    }
    true
}

fn adjective_in_force(a: &Adjective, next: u32) -> bool
    ensures { result ≡ adjective_in_force next a.now }
{
    terms_in_force(&a.args, next)
}

fn adjectives_in_force(xs: &Adjectives, next: u32) -> bool
    ensures { result ≡ list_all (adjective_in_force next) xs.now }
{
    for a in &xs.items {
        if !adjective_in_force(a, next) {
            return false;
        }
    }
    true
}

/// Whether each constant of the type is below `next`.
pub fn type_in_force(ty: &SoftType, next: u32) -> bool
    ensures { result ≡ type_in_force next ty.now }
{
    adjectives_in_force(&ty.adjectives, next) && terms_in_force(&ty.radix.args, next)
}

/// Whether each constant of the statement is below `next`.
pub fn statement_in_force(s: &Statement, next: u32) -> bool
    ensures { result ≡ statement_in_force next s.now }
{
    match &s.node {
        StatementNode::Truth => true,
        StatementNode::Eq(t, u) => term_in_force(t, next) && term_in_force(u, next),
        StatementNode::Atom(_, ts) => terms_in_force(ts, next),
        StatementNode::Not(s) => statement_in_force(s, next),
        StatementNode::And(s, t) => statement_in_force(s, next) && statement_in_force(t, next),
        StatementNode::For(ty, s) => type_in_force(ty, next) && statement_in_force(s, next),
    }
}
