//! Whether what is read keeps the limits on nodes and depth.
ghost use Rattle.std.specs.Prelude.{◌≡◌};
ghost use Rattle.mz_sizes.specs.Sizes.{term_keeps, adjective_keeps, type_keeps, statement_keeps};

use crate::depth::{adjective_within, statement_within, term_within, type_within};
use crate::nodes::{after_adjective, after_statement, after_term, after_type};
use mz_core::adjective::Adjective;
use mz_core::soft_type::SoftType;
use mz_core::statement::Statement;
use mz_logic::term::Term;

const MOST_NODES: u32 = 65536;

const MOST_DEPTH: u32 = 512;

/// Whether the term has at most 65,536 nodes and at most the depth 512.
#[tactic(auto, using(crate::proofs::SpentLemmas::keep_rules))]
pub fn term_keeps(t: &Term) -> bool
    ensures { result ≡ term_keeps t.now }
{
    match after_term(t, MOST_NODES) {
        Some(_) => term_within(t, MOST_DEPTH),
        None => false,
    }
}

/// The same of an adjective.
#[tactic(auto, using(crate::proofs::SpentLemmas::keep_rules))]
pub fn adjective_keeps(a: &Adjective) -> bool
    ensures { result ≡ adjective_keeps a.now }
{
    match after_adjective(a, MOST_NODES) {
        Some(_) => adjective_within(a, MOST_DEPTH),
        None => false,
    }
}

/// The same of a type.
#[tactic(auto, using(crate::proofs::SpentLemmas::keep_rules))]
pub fn type_keeps(ty: &SoftType) -> bool
    ensures { result ≡ type_keeps ty.now }
{
    match after_type(ty, MOST_NODES) {
        Some(_) => type_within(ty, MOST_DEPTH),
        None => false,
    }
}

/// The same of a statement.
#[tactic(auto, using(crate::proofs::SpentLemmas::keep_rules))]
pub fn statement_keeps(s: &Statement) -> bool
    ensures { result ≡ statement_keeps s.now }
{
    match after_statement(s, MOST_NODES) {
        Some(_) => statement_within(s, MOST_DEPTH),
        None => false,
    }
}
