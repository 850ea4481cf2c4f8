//! Whether a depth is within a number.
ghost use Rattle.std.specs.Prelude.{◌≡◌, suc, max, nat_le};
ghost use Rattle.mz_logic.specs.Term.{terms_of};
ghost use Rattle.mz_sizes.specs.Sizes.{term_depth, args_depth, adjective_depth, adjectives_depth, type_depth, statement_depth};

use mz_core::adjective::Adjective;
use mz_core::adjectives::Adjectives;
use mz_core::soft_type::SoftType;
use mz_core::statement::{Statement, StatementNode};
use mz_logic::term::{Term, TermNode, Terms};

/// Whether the term has at most the depth.
#[cycle(depth)]
#[tactic(auto, using(crate::proofs::DepthLemmas::term_rules))]
pub fn term_within(t: &Term, most: u32) -> bool
    ensures { result ≡ nat_le (term_depth t.now) most }
{
    if most == 0 {
        return false;
    }
    match &t.node {
        TermNode::Bound(_) => true,
        TermNode::Const(_) => true,
        TermNode::App(_, ts) => terms_within(ts, most - 1),
    }
}

/// Whether each of the terms has at most the depth.
#[cycle(depth)]
#[tactic(auto, using(crate::proofs::DepthLemmas::terms_rules))]
pub fn terms_within(ts: &Terms, most: u32) -> bool
    ensures { result ≡ nat_le (args_depth (terms_of ts.now)) most }
{
    for t in &ts.items {
        if !term_within(t, most) {
            return false;
        }
    }
    true
}

/// The same of an adjective.
#[tactic(auto, using(crate::proofs::DepthLemmas::inside_rules))]
pub fn adjective_within(a: &Adjective, most: u32) -> bool
    ensures { result ≡ nat_le (adjective_depth a.now) most }
{
    if most == 0 {
        return false;
    }
    terms_within(&a.args, most - 1)
}

#[tactic(auto, using(crate::proofs::DepthLemmas::adjectives_rules))]
fn adjectives_within(xs: &Adjectives, most: u32) -> bool
    ensures { result ≡ nat_le (adjectives_depth xs.now) most }
{
    for a in &xs.items {
        if !adjective_within(a, most) {
            return false;
        }
    }
    true
}

#[tactic(auto, using(crate::proofs::DepthLemmas::inside_rules))]
fn radix_within(ts: &Terms, most: u32) -> bool
    ensures { result ≡ nat_le (suc (args_depth (terms_of ts.now))) most }
{
    if most == 0 {
        return false;
    }
    terms_within(ts, most - 1)
}

/// The same of a type.
#[tactic(auto, using(crate::proofs::DepthLemmas::both_rules))]
pub fn type_within(ty: &SoftType, most: u32) -> bool
    ensures { result ≡ nat_le (type_depth ty.now) most }
{
    radix_within(&ty.radix.args, most) && adjectives_within(&ty.adjectives, most)
}

#[tactic(auto, using(crate::proofs::DepthLemmas::both_rules))]
fn sides_within(t: &Term, u: &Term, most: u32) -> bool
    ensures { result ≡ nat_le (max (term_depth t.now) (term_depth u.now)) most }
{
    term_within(t, most) && term_within(u, most)
}

/// The same of a statement.
#[tactic(auto, using(crate::proofs::DepthLemmas::statement_rules))]
pub fn statement_within(s: &Statement, most: u32) -> bool
    ensures { result ≡ nat_le (statement_depth s.now) most }
{
    if most == 0 {
        return false;
    }
    match &s.node {
        StatementNode::Truth => true,
        StatementNode::Eq(t, u) => sides_within(t, u, most - 1),
        StatementNode::Atom(_, ts) => terms_within(ts, most - 1),
        StatementNode::Not(s) => statement_within(s, most - 1),
        StatementNode::And(s, t) => statement_within(s, most - 1) && statement_within(t, most - 1),
        StatementNode::For(ty, s) => type_within(ty, most - 1) && statement_within(s, most - 1),
    }
}
