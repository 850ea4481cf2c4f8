//! The schemes that `from` cites.
ghost use Rattle.std.specs.Prelude.{◌≡◌, map, find, reverse, IfOk};
ghost use Rattle.std.specs.Option.{option_copied};
ghost use Rattle.std.specs.Arc.{arc_value};
ghost use Rattle.mz_cited.specs.Cited.{article_number};
ghost use Rattle.mz_given.specs.Schemes.{is_numbered, scheme_numbered, has_label, scheme_labelled, scheme_cited, scheme_place};

use mz_base::name::Name;
use mz_base::place::Place;
use mz_cited::numerals::value_of;
use mz_context::context::Context;
use mz_context::labelled_schemes::LabelledScheme;
use mz_copies::schemes::scheme_copy;
use mz_core::scheme::Scheme;
use mz_environment::cited::CitedScheme;
use mz_environment::environment::Environment;
use mz_tree_proof::references::SchemeReferenceTree;
use std::alloc::{AllocError, Global};
use std::sync::Arc;

fn article_number(bytes: &[u8]) -> Option<u64>
    ensures { result ≡ article_number bytes.now }
{
    match Name::read(bytes) {
        Ok(name) => Some(name.number),
        Err(_) => None,
    }
}

fn is_numbered(s: &CitedScheme, number: u64) -> bool
    ensures { result ≡ is_numbered number s.now }
{
    s.number == number
}

/// The first of them with the number.
#[tactic(auto, using(mz_cited::proofs::FindLemmas::first_rules))]
fn numbered<'a>(ss: &'a [Arc<CitedScheme>], number: u64) -> Option<&'a CitedScheme>
    ensures { option_copied result ≡ find (is_numbered number) (map arc_value ss.now) }
{
    let mut rest = ss;
    while let Some((x, others)) = rest.split_first() {
        let first: &CitedScheme = x;
        if is_numbered(first, number) {
            return Some(first);
        }
        rest = others;
    }
    None
}

fn scheme_numbered(
    alloc: Global,
    env: &Environment,
    article: Option<u64>,
    number: Option<u64>,
) -> Result<Option<Scheme>, AllocError>
    ensures { IfOk result (λ o. o ≡ scheme_numbered env.now article number) }
{
    match (article, number) {
        (Some(a), Some(n)) => match numbered(env.schemes.of(a), n) {
            Some(s) => {
                let s = scheme_copy(alloc, &s.scheme)?;
                Ok(Some(s))
            }
            None => Ok(None),
        },
        _ => Ok(None),
    }
}

fn has_label(s: &LabelledScheme, label: &[u8]) -> bool
    ensures { result ≡ has_label label.now s.now }
{
    s.label.as_slice() == label
}

fn latest<'a>(ss: &'a [LabelledScheme], label: &[u8]) -> Option<&'a LabelledScheme>
    ensures { option_copied result ≡ find (has_label label.now) (reverse ss.now) }
{
    ss.iter().rev().find(|s| has_label(s, label))
}

fn scheme_labelled(ctx: &Context, label: &[u8]) -> Option<u64>
    ensures { result ≡ scheme_labelled ctx.now label.now }
{
    match latest(ctx.schemes.items.as_slice(), label) {
        Some(s) => Some(s.number),
        None => None,
    }
}

/// The scheme that the reference cites, where it cites one: the article's latest with the label, or that of an article with the
/// number, if it may be cited.
pub fn scheme_cited(
    alloc: Global,
    env: &Environment,
    ctx: &Context,
    tree: &SchemeReferenceTree,
) -> Result<Option<Scheme>, AllocError>
    ensures { IfOk result (λ o. o ≡ scheme_cited env.now ctx.now tree.now) }
{
    match tree {
        SchemeReferenceTree::Label(w) => {
            let number = scheme_labelled(ctx, w.spelling.as_slice());
            scheme_numbered(alloc, env, Some(ctx.article), number)
        }
        SchemeReferenceTree::Numbered {
            article,
            number,
            ..
        } => {
            let a = article_number(article.spelling.as_slice());
            let n = value_of(number.spelling.as_slice());
            scheme_numbered(alloc, env, a, n)
        }
    }
}

/// The place of the reference: that of its first token.
pub fn scheme_place(tree: &SchemeReferenceTree) -> Place
    ensures { result ≡ scheme_place tree.now }
{
    match tree {
        SchemeReferenceTree::Label(w) => w.place,
        SchemeReferenceTree::Numbered { article, .. } => article.place,
    }
}
