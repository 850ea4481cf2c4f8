//! What articles depend on.
ghost use Rattle.std.specs.Prelude.{◌≡◌, IfOk, OnOk, Contains, filter, fold, map, not};
ghost use Rattle.mz_base.specs.Name.{is_built_in};
ghost use Rattle.mz_corpus.specs.Link.{Link as LinkValue};
ghost use Rattle.mz_corpus.specs.Corpus.{IsReach};
ghost use Rattle.mz_corpus.specs.Names.{with_name};
ghost use Rattle.mz_corpus.specs.Reach.{direct_of, link_of_source, with_link, AreKnown, IsComplete};

use crate::ascending::ascending;
use crate::name_set::NameSet;
use crate::source::{Source, Sources};
use mz_base::name::Name;
use mz_base::names::Names;
use std::alloc::{AllocError, Global};
use std::marker::Model;

/// An article's name and its direct dependencies in the order of names, without built-in names.
#[derive(Drop)]
pub struct Link {
    pub name: Name,
    pub direct: Names,
}

impl Model for Link {
    ghost use Rattle.mz_corpus.specs.Link.{Link as LinkValue};

    ghost Value = { LinkValue };

    ghost view = { λ a. record { name = a.name; direct = a.direct } };
}

/// The links of some articles.
#[derive(Drop)]
pub struct Links {
    pub items: Vec<Link>,
}

impl Model for Links {
    ghost use Rattle.std.specs.Prelude.{List};
    ghost use Rattle.mz_corpus.specs.Link.{Link as LinkValue};

    ghost Value = { List LinkValue };

    ghost view = { λ a. a.items.items };
}

/// The names that aren't built in, in their order, each once.
pub fn direct_of(alloc: Global, names: &Names) -> Result<Names, AllocError>
    ensures { IfOk result (λ direct. direct ≡ direct_of names.now) }
{
    let fetched = fetched_names(alloc, names)?;
    ascending(alloc, fetched.as_slice())
}

fn fetched_names(alloc: Global, names: &Names) -> Result<Names, AllocError>
    ensures { IfOk result (λ fetched. fetched ≡ filter (λ n. not (is_built_in n.number)) names.now) }
{
    let items = names
        .items
        .iter()
        .filter(|name| !name.is_built_in())
        .copied()
        .collect(alloc)?;
    Ok(Names { items })
}

fn link_of(alloc: Global, source: &Source) -> Result<Link, AllocError>
    ensures { IfOk result (λ link. link ≡ link_of_source source.now) }
{
    let direct = direct_of(alloc, &source.dependencies)?;
    Ok(Link {
        name: source.name,
        direct,
    })
}

/// The links of the articles for which this was fetched.
pub fn links_of(alloc: Global, sources: &Sources) -> Result<Links, AllocError>
    ensures { IfOk result (λ links. links ≡ map link_of_source sources.now) }
{
    let mut items = Vec::new(alloc);
    for source in &sources.items {
        items.push(link_of(alloc, source)?)?;
    }
    Ok(Links { items })
}

fn add_names(set: &mut NameSet, names: &Names) -> Result<(), AllocError>
    ensures { OnOk result (set.new ≡ fold with_name set.old names.now) }
{
    for name in &names.items {
        set.insert(*name)?;
    }
    Ok(())
}

fn add_link(set: &mut NameSet, name: &Name, link: &Link) -> Result<(), AllocError>
    ensures { OnOk result (set.new ≡ with_link name.now set.old link.now) }
{
    if name.number() == link.name.number() {
        add_names(set, &link.direct)
    } else {
        Ok(())
    }
}

/// Adds the direct dependencies of the article of this name.
fn add_links(set: &mut NameSet, name: &Name, links: &Links) -> Result<(), AllocError>
    ensures { OnOk result (set.new ≡ fold (with_link name.now) set.old links.now) }
{
    for link in &links.items {
        add_link(set, name, link)?;
    }
    Ok(())
}

/// The names on which an article with these direct dependencies depends, in the order in which they are found.
fn reached(alloc: Global, links: &Links, direct: &Names) -> Result<NameSet, AllocError>
    requires known { AreKnown links.now direct.now }
    requires all_known { (l : LinkValue) → Contains links.now l → AreKnown links.now l.direct }
    ensures { IfOk result (IsComplete links.now direct.now) }
{
    let mut set = NameSet::new(alloc);
    add_names(&mut set, direct)?;
    let mut at = 0;
    while at < set.len() {
        let name = set.as_slice()[at];
        add_links(&mut set, &name, links)?;
        at += 1;
    }
    Ok(set)
}

/// The names on which an article with these direct dependencies depends, in their order.
pub fn reach(alloc: Global, links: &Links, direct: &Names) -> Result<Names, AllocError>
    requires known { AreKnown links.now direct.now }
    requires all_known { (l : LinkValue) → Contains links.now l → AreKnown links.now l.direct }
    ensures { IfOk result (IsReach links.now direct.now) }
{
    let set = reached(alloc, links, direct)?;
    let names = ascending(alloc, set.as_slice())?;
    Ok(names)
}
