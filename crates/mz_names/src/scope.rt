//! Whether constants may be used.
ghost use Rattle.std.specs.Prelude.{◌≡◌};
ghost use Rattle.std.specs.List.{list_all};
ghost use Rattle.mz_names.specs.Scope.{term_from, adjective_from, type_from, types_from, statement_from};

use mz_core::adjective::Adjective;
use mz_core::adjectives::Adjectives;
use mz_core::soft_type::SoftType;
use mz_core::soft_types::SoftTypes;
use mz_core::statement::{Statement, StatementNode};
use mz_logic::term::{Term, TermNode, Terms};

/// Whether each constant of the term has at least the number.
#[cycle(from)]
#[tactic(auto, using(crate::proofs::ScopeLemmas::from_rules))]
pub fn term_from(t: &Term, least: u32) -> bool
    ensures { result ≡ term_from least t.now }
{
    match &t.node {
        TermNode::Bound(_) => true,
        TermNode::Const(number) => least <= *number,
        TermNode::App(_, ts) => terms_from(ts, least),
    }
}

/// The same of each term.
#[cycle(from)]
pub fn terms_from(ts: &Terms, least: u32) -> bool
    ensures { result ≡ list_all (term_from least) ts.now }
{
    for t in &ts.items {
        if !term_from(t, least) {
            return false;
        }
    }
    true
}

fn adjective_from(a: &Adjective, least: u32) -> bool
    ensures { result ≡ adjective_from least a.now }
{
    terms_from(&a.args, least)
}

fn adjectives_from(xs: &Adjectives, least: u32) -> bool
    ensures { result ≡ list_all (adjective_from least) xs.now }
{
    for a in &xs.items {
        if !adjective_from(a, least) {
            return false;
        }
    }
    true
}

/// Whether each constant of the type has at least the number.
pub fn type_from(ty: &SoftType, least: u32) -> bool
    ensures { result ≡ type_from least ty.now }
{
    adjectives_from(&ty.adjectives, least) && terms_from(&ty.radix.args, least)
}

/// The same of each type.
pub fn types_from(tys: &SoftTypes, least: u32) -> bool
    ensures { result ≡ types_from least tys.now }
{
    for ty in &tys.items {
        if !type_from(ty, least) {
            return false;
        }
    }
    true
}

/// Whether each constant of the statement has at least the number.
pub fn statement_from(s: &Statement, least: u32) -> bool
    ensures { result ≡ statement_from least s.now }
{
    match &s.node {
        StatementNode::Truth => true,
        StatementNode::Eq(t, u) => term_from(t, least) && term_from(u, least),
        StatementNode::Atom(_, ts) => terms_from(ts, least),
        StatementNode::Not(s) => statement_from(s, least),
        StatementNode::And(s, t) => statement_from(s, least) && statement_from(t, least),
        StatementNode::For(ty, s) => type_from(ty, least) && statement_from(s, least),
    }
}
