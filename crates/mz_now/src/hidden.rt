//! Constants that may not be in what a `now` states.
ghost use Rattle.std.specs.Prelude.{◌≡◌, IfOk};
ghost use Rattle.std.specs.List.{list_any};
ghost use Rattle.mz_now.specs.Stated.{adjective_has, type_has, statement_has, hides, in_term, in_type, in_statement, term_has_hidden, type_has_hidden, has_hidden, defined, brings_hidden};

use crate::now_part::NowPart;
use mz_core::adjective::Adjective;
use mz_core::adjectives::Adjectives;
use mz_core::soft_type::SoftType;
use mz_core::statement::{Statement, StatementNode};
use mz_logic::term::Term;
use std::alloc::{AllocError, Global};

fn adjective_has(a: &Adjective, c: u32) -> bool
    ensures { result ≡ adjective_has c a.now }
{
    a.args.have_constant(c)
}

fn adjectives_have(xs: &Adjectives, c: u32) -> bool
    ensures { result ≡ list_any (adjective_has c) xs.now }
{
    for a in &xs.items {
        if adjective_has(a, c) {
            return true;
        }
    }
    false
}

fn type_has(ty: &SoftType, c: u32) -> bool
    ensures { result ≡ type_has c ty.now }
{
    adjectives_have(&ty.adjectives, c) || ty.radix.args.have_constant(c)
}

/// Whether the constant occurs in the statement.
pub fn statement_has(s: &Statement, c: u32) -> bool
    ensures { result ≡ statement_has c s.now }
{
    match &s.node {
        StatementNode::Truth => false,
        StatementNode::Eq(t, u) => t.has_constant(c) || u.has_constant(c),
        StatementNode::Atom(_, ts) => ts.have_constant(c),
        StatementNode::Not(s) => statement_has(s, c),
        StatementNode::And(s, t) => statement_has(s, c) || statement_has(t, c),
        StatementNode::For(ty, s) => type_has(ty, c) || statement_has(s, c),
    }
}

fn hides_of_term(p: &NowPart, t: &Term) -> bool
    ensures { result ≡ hides (in_term t.now) p.now }
{
    match p {
        NowPart::Quantifier { .. } => false,
        NowPart::Antecedent(_) => false,
        NowPart::Conjunct(_) => false,
        NowPart::Defined { .. } => false,
        NowPart::Hidden { constant } => t.has_constant(*constant),
    }
}

/// Whether the term has a hidden constant.
fn term_has_hidden(ps: &[NowPart], t: &Term) -> bool
    ensures { result ≡ term_has_hidden ps.now t.now }
{
    for p in ps {
        if hides_of_term(p, t) {
            return true;
        }
    }
    false
}

fn hides_of_type(p: &NowPart, ty: &SoftType) -> bool
    ensures { result ≡ hides (in_type ty.now) p.now }
{
    match p {
        NowPart::Quantifier { .. } => false,
        NowPart::Antecedent(_) => false,
        NowPart::Conjunct(_) => false,
        NowPart::Defined { .. } => false,
        NowPart::Hidden { constant } => type_has(ty, *constant),
    }
}

/// Whether the type has a hidden constant.
fn type_has_hidden(ps: &[NowPart], ty: &SoftType) -> bool
    ensures { result ≡ type_has_hidden ps.now ty.now }
{
    for p in ps {
        if hides_of_type(p, ty) {
            return true;
        }
    }
    false
}

fn hides_of_statement(p: &NowPart, s: &Statement) -> bool
    ensures { result ≡ hides (in_statement s.now) p.now }
{
    match p {
        NowPart::Quantifier { .. } => false,
        NowPart::Antecedent(_) => false,
        NowPart::Conjunct(_) => false,
        NowPart::Defined { .. } => false,
        NowPart::Hidden { constant } => statement_has(s, *constant),
    }
}

/// Whether the statement has a hidden constant.
fn has_hidden(ps: &[NowPart], s: &Statement) -> bool
    ensures { result ≡ has_hidden ps.now s.now }
{
    for p in ps {
        if hides_of_statement(p, s) {
            return true;
        }
    }
    false
}

/// A constant that is equal to the term: where the term has a hidden constant it is hidden, too; else the term is put for it.
pub fn defined(
    alloc: Global,
    ps: &[NowPart],
    constant: u32,
    t: &Term,
) -> Result<NowPart, AllocError>
    ensures { IfOk result (λ p. p ≡ defined ps.now constant t.now) }
{
    if term_has_hidden(ps, t) {
        return Ok(NowPart::Hidden { constant });
    }
    let term = t.copy(alloc)?;
    Ok(NowPart::Defined { constant, term })
}

/// Whether the further part would bring a hidden constant into what is stated.
pub fn brings_hidden(ps: &[NowPart], p: &NowPart) -> bool
    ensures { result ≡ brings_hidden ps.now p.now }
{
    match p {
        NowPart::Quantifier { ty, .. } => type_has_hidden(ps, ty),
        NowPart::Antecedent(s) => has_hidden(ps, s),
        NowPart::Conjunct(s) => has_hidden(ps, s),
        NowPart::Defined { .. } => false,
        NowPart::Hidden { .. } => false,
    }
}
