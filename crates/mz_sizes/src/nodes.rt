//! What is left of a number of nodes.
ghost use Rattle.std.specs.Prelude.{suc, ◌+◌};
ghost use Rattle.mz_logic.specs.Term.{terms_of};
ghost use Rattle.mz_ground.specs.Instance.{term_nodes, args_nodes};
ghost use Rattle.mz_ground.specs.Nodes.{IsSpent};
ghost use Rattle.mz_sizes.specs.Sizes.{adjective_nodes, adjectives_nodes, type_nodes, statement_nodes};

use mz_core::adjective::Adjective;
use mz_core::adjectives::Adjectives;
use mz_core::soft_type::SoftType;
use mz_core::statement::{Statement, StatementNode};
use mz_logic::term::{Term, TermNode, Terms};

/// What is left of so many nodes after those of the term.
#[cycle(nodes)]
#[tactic(auto, using(crate::proofs::SpentLemmas::term_rules))]
pub fn after_term(t: &Term, left: u32) -> Option<u32>
    ensures { IsSpent left (term_nodes t.now) result }
{
    if left == 0 {
        return None;
    }
    match &t.node {
        TermNode::Bound(_) => Some(left - 1),
        TermNode::Const(_) => Some(left - 1),
        TermNode::App(_, ts) => after_terms(ts, left - 1),
    }
}

/// After those of the terms.
#[cycle(nodes)]
#[tactic(auto, using(crate::proofs::SpentLemmas::terms_rules))]
pub fn after_terms(ts: &Terms, left: u32) -> Option<u32>
    ensures { IsSpent left (args_nodes (terms_of ts.now)) result }
{
    let mut rest = left;
    for t in &ts.items {
        match after_term(t, rest) {
            Some(less) => rest = less,
            None => return None,
        }
    }
    Some(rest)
}

/// After those of the adjective.
#[tactic(auto, using(crate::proofs::SpentLemmas::inside_rules))]
pub fn after_adjective(a: &Adjective, left: u32) -> Option<u32>
    ensures { IsSpent left (adjective_nodes a.now) result }
{
    if left == 0 {
        return None;
    }
    after_terms(&a.args, left - 1)
}

#[tactic(auto, using(crate::proofs::SpentLemmas::adjectives_rules))]
fn after_adjectives(xs: &Adjectives, left: u32) -> Option<u32>
    ensures { IsSpent left (adjectives_nodes xs.now) result }
{
    let mut rest = left;
    for a in &xs.items {
        match after_adjective(a, rest) {
            Some(less) => rest = less,
            None => return None,
        }
    }
    Some(rest)
}

#[tactic(auto, using(crate::proofs::SpentLemmas::inside_rules))]
fn after_radix(ts: &Terms, left: u32) -> Option<u32>
    ensures { IsSpent left (suc (args_nodes (terms_of ts.now))) result }
{
    if left == 0 {
        return None;
    }
    after_terms(ts, left - 1)
}

/// After those of the type.
#[tactic(auto, using(crate::proofs::SpentLemmas::both_rules))]
pub fn after_type(ty: &SoftType, left: u32) -> Option<u32>
    ensures { IsSpent left (type_nodes ty.now) result }
{
    match after_radix(&ty.radix.args, left) {
        Some(rest) => after_adjectives(&ty.adjectives, rest),
        None => None,
    }
}

#[tactic(auto, using(crate::proofs::SpentLemmas::both_rules))]
fn after_sides(t: &Term, u: &Term, left: u32) -> Option<u32>
    ensures { IsSpent left (term_nodes t.now + term_nodes u.now) result }
{
    match after_term(t, left) {
        Some(rest) => after_term(u, rest),
        None => None,
    }
}

/// After those of the statement.
#[tactic(auto, using(crate::proofs::SpentLemmas::statement_rules))]
pub fn after_statement(s: &Statement, left: u32) -> Option<u32>
    ensures { IsSpent left (statement_nodes s.now) result }
{
    if left == 0 {
        return None;
    }
    match &s.node {
        StatementNode::Truth => Some(left - 1),
        StatementNode::Eq(t, u) => after_sides(t, u, left - 1),
        StatementNode::Atom(_, ts) => after_terms(ts, left - 1),
        StatementNode::Not(s) => after_statement(s, left - 1),
        StatementNode::And(s, t) => match after_statement(s, left - 1) {
            Some(rest) => after_statement(t, rest),
            None => None,
        },
        StatementNode::For(ty, s) => match after_type(ty, left - 1) {
            Some(rest) => after_statement(s, rest),
            None => None,
        },
    }
}
