//! Whether constructors are let in.
ghost use Rattle.std.specs.Prelude.{◌≡◌};
ghost use Rattle.mz_env.specs.Symbols.{sym_in, term_in, terms_in, literal_in, adjective_in, adjectives_in, type_in, types_in, type_if_any_in, meaning_in, notation_in};

use crate::articles::Articles;
use mz_core::adjective::Adjective;
use mz_core::adjectives::Adjectives;
use mz_core::notation::{Meaning, Notation};
use mz_core::soft_type::SoftType;
use mz_core::soft_types::SoftTypes;
use mz_logic::literal::Literal;
use mz_logic::sym::Sym;
use mz_logic::term::{Term, TermNode, Terms};

fn sym_in(articles: &Articles, s: Sym) -> bool
    ensures { result ≡ sym_in articles.now s }
{
    articles.has(s.article)
}

/// Whether the constructors of the term are let in.
#[cycle(let_in)]
#[tactic(auto, using(crate::proofs::SymbolLemmas::args_in_rules))]
pub fn term_in(articles: &Articles, t: &Term) -> bool
    ensures { result ≡ term_in articles.now t.now }
{
    match &t.node {
        TermNode::Bound(_) => true,
        TermNode::Const(_) => true,
        TermNode::App(s, ts) => sym_in(articles, *s) && terms_in(articles, ts),
    }
}

#[cycle(let_in)]
fn terms_in(articles: &Articles, ts: &Terms) -> bool
    ensures { result ≡ terms_in articles.now ts.now }
{
    for t in &ts.items {
        if !term_in(articles, t) {
            return false;
        }
    }
    true
}

fn literal_in(articles: &Articles, l: &Literal) -> bool
    ensures { result ≡ literal_in articles.now l.now }
{
    match l {
        Literal::Atom { sym, args, .. } => sym_in(articles, *sym) && terms_in(articles, args),
        Literal::Eq { left, right, .. } => term_in(articles, left) && term_in(articles, right),
    }
}

fn adjective_in(articles: &Articles, a: &Adjective) -> bool
    ensures { result ≡ adjective_in articles.now a.now }
{
    sym_in(articles, a.sym) && terms_in(articles, &a.args)
}

/// Whether the constructors of the adjectives are let in.
pub fn adjectives_in(articles: &Articles, xs: &Adjectives) -> bool
    ensures { result ≡ adjectives_in articles.now xs.now }
{
    for a in &xs.items {
        if !adjective_in(articles, a) {
            return false;
        }
    }
    true
}

/// Whether the constructors of the type are let in.
pub fn type_in(articles: &Articles, ty: &SoftType) -> bool
    ensures { result ≡ type_in articles.now ty.now }
{
    sym_in(articles, ty.radix.sym)
        && terms_in(articles, &ty.radix.args)
        && adjectives_in(articles, &ty.adjectives)
}

/// Whether the constructors of the types are let in.
pub fn types_in(articles: &Articles, tys: &SoftTypes) -> bool
    ensures { result ≡ types_in articles.now tys.now }
{
    for ty in &tys.items {
        if !type_in(articles, ty) {
            return false;
        }
    }
    true
}

/// Whether the constructors of the type, if there is one, are let in.
pub fn type_if_any_in(articles: &Articles, ty: &Option<SoftType>) -> bool
    ensures { result ≡ type_if_any_in articles.now ty.now }
{
    match ty {
        None => true,
        Some(ty) => type_in(articles, ty),
    }
}

fn meaning_in(articles: &Articles, m: &Meaning) -> bool
    ensures { result ≡ meaning_in articles.now m.now }
{
    match m {
        Meaning::OfTerm(t) => term_in(articles, t),
        Meaning::OfLiteral(l) => literal_in(articles, l),
        Meaning::OfType(ty) => type_in(articles, ty),
    }
}

/// Whether each constructor that the notation names, in the types of its loci and in its meaning, is let in.
pub fn notation_in(articles: &Articles, x: &Notation) -> bool
    ensures { result ≡ notation_in articles.now x.now }
{
    types_in(articles, &x.pattern.loci) && meaning_in(articles, &x.meaning)
}
