//! What references cite.
ghost use Rattle.std.specs.Prelude.{◌≡◌, ◌++◌, map, find, IfOk, OnOk};
ghost use Rattle.mz_names.specs.Names.{labelled_as};
ghost use Rattle.std.specs.Option.{option_copied};
ghost use Rattle.std.specs.Arc.{arc_value};
ghost use Rattle.mz_cited.specs.Cited.{article_number, is_numbered, statement_numbered, cited_by_number, members, cited_by_numbers, labelled_alone, cited_by, place_of, cites};

use crate::numerals::value_of;
use mz_base::name::Name;
use mz_base::place::Place;
use mz_context::context::Context;
use mz_core::statement::Statement;
use mz_core::statements::Statements;
use mz_environment::cited::CitedStatement;
use mz_environment::environment::Environment;
use mz_names::names::labelled_as;
use mz_tree::lists::Separated;
use mz_tree_proof::references::{NumberTree, ReferenceTree};
use std::alloc::{AllocError, Global};
use std::sync::Arc;

fn article_number(bytes: &[u8]) -> Option<u64>
    ensures { result ≡ article_number bytes.now }
{
    match Name::read(bytes) {
        Ok(name) => Some(name.number),
        Err(_) => None,
    }
}

fn is_numbered(s: &CitedStatement, definition: bool, number: u64) -> bool
    ensures { result ≡ is_numbered definition number s.now }
{
    if definition {
        s.is_definition && s.number == number
    } else {
        !s.is_definition && s.number == number
    }
}

/// The first of them with the number.
#[tactic(auto, using(crate::proofs::FindLemmas::first_rules))]
fn numbered<'a>(
    ss: &'a [Arc<CitedStatement>],
    definition: bool,
    number: u64,
) -> Option<&'a CitedStatement>
    ensures { option_copied result ≡ find (is_numbered definition number) (map arc_value ss.now) }
{
    let mut rest = ss;
    while let Some((x, others)) = rest.split_first() {
        let first: &CitedStatement = x;
        if is_numbered(first, definition, number) {
            return Some(first);
        }
        rest = others;
    }
    None
}

fn statement_numbered(
    alloc: Global,
    env: &Environment,
    article: Option<u64>,
    definition: bool,
    number: Option<u64>,
) -> Result<Option<Statement>, AllocError>
    ensures { IfOk result (λ o. o ≡ statement_numbered env.now article definition number) }
{
    match (article, number) {
        (Some(a), Some(n)) => match numbered(env.theorems.of(a), definition, n) {
            Some(s) => {
                let s = s.statement.copy(alloc)?;
                Ok(Some(s))
            }
            None => Ok(None),
        },
        _ => Ok(None),
    }
}

fn cited_by_number(
    alloc: Global,
    env: &Environment,
    article: Option<u64>,
    tree: &NumberTree,
) -> Result<Option<Statement>, AllocError>
    ensures { IfOk result (λ o. o ≡ cited_by_number env.now article tree.now) }
{
    match tree {
        NumberTree::Theorem(w) => {
            let n = value_of(w.spelling.as_slice());
            let o = statement_numbered(alloc, env, article, false, n)?;
            Ok(o)
        }
        NumberTree::Definition { number, .. } => {
            let n = value_of(number.spelling.as_slice());
            let o = statement_numbered(alloc, env, article, true, n)?;
            Ok(o)
        }
    }
}

#[tactic(auto, using(crate::proofs::CitedLemmas::number_rules))]
fn cited_by_numbers(
    alloc: Global,
    env: &Environment,
    article: Option<u64>,
    trees: &Separated<NumberTree>,
) -> Result<Option<Statements>, AllocError>
    ensures { IfOk result (λ o. o ≡ cited_by_numbers env.now article (members trees.now)) }
{
    let mut out = Statements::new(alloc);
    match cited_by_number(alloc, env, article, &trees.first)? {
        Some(s) => out.push(s)?,
        None => return Ok(None),
    }
    for next in &trees.more.items {
        match cited_by_number(alloc, env, article, &next.tree)? {
            Some(s) => out.push(s)?,
            None => return Ok(None),
        }
    }
    Ok(Some(out))
}

fn labelled(alloc: Global, ctx: &Context, label: &[u8]) -> Result<Option<Statements>, AllocError>
    ensures { IfOk result (λ o. o ≡ labelled_alone (labelled_as ctx.now label.now)) }
{
    match labelled_as(ctx, label) {
        Some(s) => {
            let mut out = Statements::new(alloc);
            out.push(s.statement.copy(alloc)?)?;
            Ok(Some(out))
        }
        None => Ok(None),
    }
}

/// What a reference cites, where it cites something: the latest statement with the label, or the theorems and definitional
/// theorems of an article that may be cited.
pub fn cited_by(
    alloc: Global,
    env: &Environment,
    ctx: &Context,
    tree: &ReferenceTree,
) -> Result<Option<Statements>, AllocError>
    ensures { IfOk result (λ o. o ≡ cited_by env.now ctx.now tree.now) }
{
    match tree {
        ReferenceTree::Label(w) => {
            let o = labelled(alloc, ctx, w.spelling.as_slice())?;
            Ok(o)
        }
        ReferenceTree::Numbered {
            article,
            numbers,
            ..
        } => {
            let a = article_number(article.spelling.as_slice());
            let o = cited_by_numbers(alloc, env, a, numbers)?;
            Ok(o)
        }
    }
}

fn place_of(tree: &ReferenceTree) -> Place
    ensures { result ≡ place_of tree.now }
{
    match tree {
        ReferenceTree::Label(w) => w.place,
        ReferenceTree::Numbered { article, .. } => article.place,
    }
}

fn append(out: &mut Statements, more: Statements) -> Result<(), AllocError>
    ensures { OnOk result (out.new ≡ out.old ++ more) }
{
    let mut rest = more;
    out.items.append(&mut rest.items)?;
    Ok(())
}

/// What references cite, in their order, a repeated one as often as it stands there; or the place of the first that cites
/// nothing.
#[tactic(auto, using(crate::proofs::CitedLemmas::reference_rules))]
pub fn cite(
    alloc: Global,
    env: &Environment,
    ctx: &Context,
    trees: &Separated<ReferenceTree>,
) -> Result<Result<Statements, Place>, AllocError>
    ensures { IfOk result (λ o. o ≡ cites env.now ctx.now (members trees.now)) }
{
    let mut out = Statements::new(alloc);
    match cited_by(alloc, env, ctx, &trees.first)? {
        Some(ss) => append(&mut out, ss)?,
        None => return Ok(Err(place_of(&trees.first))),
    }
    for next in &trees.more.items {
        match cited_by(alloc, env, ctx, &next.tree)? {
            Some(ss) => append(&mut out, ss)?,
            None => return Ok(Err(place_of(&next.tree))),
        }
    }
    Ok(Ok(out))
}
