//! What can be made a corpus.
ghost use Rattle.std.specs.Prelude.{◌≡◌, map, IfOk};
ghost use Rattle.std.specs.List.{list_all};
ghost use Rattle.mz_corpus.specs.Fit.{are_apart, is_known, is_empty, is_fit_source, source_names, text_names, is_fit};
ghost use Rattle.mz_corpus.specs.Names.{is_among};

use crate::source::{Source, Sources};
use mz_base::name::Name;
use mz_base::names::Names;
use mz_base::vocabularies::Vocabularies;
use std::alloc::{AllocError, Global};

/// The most articles of a corpus.
const ARTICLE_LIMIT: usize = 512;

fn is_among(names: &[Name], name: &Name) -> bool
    ensures { result ≡ is_among names.now name.now }
{
    names.iter().any(|other| name.number() == other.number())
}

/// Whether each name stands once.
fn are_apart(names: &[Name]) -> bool
    ensures { result ≡ are_apart names.now }
{
    match names.split_first() {
        None => true,
        Some((first, rest)) => !is_among(rest, first) && are_apart(rest),
    }
}

/// Whether the name is built in or among the names.
fn is_known(names: &[Name], name: &Name) -> bool
    ensures { result ≡ is_known names.now name.now }
{
    name.is_built_in() || is_among(names, name)
}

fn are_known(names: &[Name], others: &[Name]) -> bool
    ensures { result ≡ list_all (is_known names.now) others.now }
{
    others.iter().all(|name| is_known(names, name))
}

fn is_empty(names: &[Name]) -> bool
    ensures { result ≡ is_empty names.now }
{
    match names {
        [] => true,
        [_, ..] => false,
    }
}

fn is_fit_source(names: &[Name], source: &Source) -> bool
    ensures { result ≡ is_fit_source names.now source.now }
{
    !source.name.is_built_in()
        && are_known(names, source.dependencies.as_slice())
        && (source.text.is_some()
            || (is_empty(source.dependencies.as_slice())
                && is_empty(source.vocabulary_names.as_slice())))
}

fn are_fit_sources(names: &[Name], sources: &[Source]) -> bool
    ensures { result ≡ list_all (is_fit_source names.now) sources.now }
{
    sources.iter().all(|source| is_fit_source(names, source))
}

fn source_names(alloc: Global, sources: &Sources) -> Result<Names, AllocError>
    ensures { IfOk result (λ names. names ≡ source_names sources.now) }
{
    let items = sources.items.iter().map(|s| s.name).collect(alloc)?;
    Ok(Names { items })
}

fn text_names(alloc: Global, vocabularies: &Vocabularies) -> Result<Names, AllocError>
    ensures { IfOk result (λ names. names ≡ text_names vocabularies.now) }
{
    let items = vocabularies.items.iter().map(|v| v.name()).collect(alloc)?;
    Ok(Names { items })
}

/// Whether there are at most 512 articles, their names are distinct and not built in, each dependency is built in or one of
/// them, an article without a text names nothing, and the names of the vocabularies are distinct.
pub fn is_fit(
    alloc: Global,
    sources: &Sources,
    vocabularies: &Vocabularies,
) -> Result<bool, AllocError>
    ensures { IfOk result (λ b. b ≡ is_fit sources.now vocabularies.now) }
{
    let names = source_names(alloc, sources)?;
    let texts = text_names(alloc, vocabularies)?;
    Ok(
        sources.len() <= ARTICLE_LIMIT
            && are_apart(names.as_slice())
            && are_fit_sources(names.as_slice(), sources.items.as_slice())
            && are_apart(texts.as_slice()),
    )
}
