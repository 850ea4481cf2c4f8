//! What an environment part names.
ghost use Rattle.std.specs.Prelude.{◌≡◌, IfOk, OnOk, fold};
ghost use Rattle.mz_corpus.specs.Directives.{names_dependencies, names_vocabularies, names_of, with_dependencies, with_vocabularies, dependencies_of, vocabulary_names_of};
ghost use Rattle.mz_corpus.specs.Names.{with_name, with_fetched_name};

use crate::name_set::NameSet;
use mz_base::head::{Directive, DirectiveKind};
use mz_base::names::Names;
use std::alloc::{AllocError, Global};

fn names_dependencies(kind: DirectiveKind) -> bool
    ensures { result ≡ names_dependencies kind }
{
    !matches!(
        kind,
        DirectiveKind::Vocabularies | DirectiveKind::Requirements
    )
}

fn names_vocabularies(kind: DirectiveKind) -> bool
    ensures { result ≡ names_vocabularies kind }
{
    matches!(kind, DirectiveKind::Vocabularies)
}

fn add_names(set: &mut NameSet, directive: &Directive) -> Result<(), AllocError>
    ensures { OnOk result (set.new ≡ fold with_name set.old (names_of directive.now)) }
{
    for placed in &directive.names.items {
        set.insert(placed.name)?;
    }
    Ok(())
}

fn add_fetched_names(set: &mut NameSet, directive: &Directive) -> Result<(), AllocError>
    ensures { OnOk result (set.new ≡ fold with_fetched_name set.old (names_of directive.now)) }
{
    for placed in &directive.names.items {
        set.insert_fetched(placed.name)?;
    }
    Ok(())
}

fn add_dependencies(set: &mut NameSet, directive: &Directive) -> Result<(), AllocError>
    ensures { OnOk result (set.new ≡ with_dependencies set.old directive.now) }
{
    if names_dependencies(directive.kind) {
        add_names(set, directive)
    } else {
        Ok(())
    }
}

fn add_vocabularies(set: &mut NameSet, directive: &Directive) -> Result<(), AllocError>
    ensures { OnOk result (set.new ≡ with_vocabularies set.old directive.now) }
{
    if names_vocabularies(directive.kind) {
        add_fetched_names(set, directive)
    } else {
        Ok(())
    }
}

/// The names of all directives but `vocabularies` and `requirements`, in the order of the text, each once.
pub fn dependencies_of(alloc: Global, directives: &[Directive]) -> Result<Names, AllocError>
    ensures { IfOk result (λ names. names ≡ dependencies_of directives.now) }
{
    let mut set = NameSet::new(alloc);
    for directive in directives {
        add_dependencies(&mut set, directive)?;
    }
    set.to_names(alloc)
}

/// The names of the directives `vocabularies`, but for built-in names, in the order of the text, each once.
pub fn vocabulary_names_of(alloc: Global, directives: &[Directive]) -> Result<Names, AllocError>
    ensures { IfOk result (λ names. names ≡ vocabulary_names_of directives.now) }
{
    let mut set = NameSet::new(alloc);
    for directive in directives {
        add_vocabularies(&mut set, directive)?;
    }
    set.to_names(alloc)
}
