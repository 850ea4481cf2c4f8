//! Articles are taken one after another.
//!
//! An article is looked at again only where one of its dependencies was taken, and from that dependency on at which the
//! last look stopped. So the whole takes a time near linear in names and dependencies.
ghost use Rattle.std.specs.Prelude.{◌≡◌, ◌<◌, ◌≤◌, ℕ, true, false, [], take, length, IfOk, OnOk, Contains, slice_set};
ghost use Rattle.std.specs.List.{list_all};
ghost use Rattle.mz_corpus.specs.Dependents.{AreDependents, rows_at};
ghost use Rattle.mz_corpus.specs.Names.{with_name};
ghost use Rattle.mz_corpus.specs.Order.{is_at_hand, Takes};
ghost use Rattle.mz_corpus.specs.Taking.{AreSeen, IsPopped, with_ready, with_row, with_rows};

use crate::article::Article;
use crate::dependents::{Dependents, Rows, dependents_of};
use crate::name_set::NameSet;
use mz_base::name::Name;
use std::alloc::{AllocError, Global};
use std::collections::BTreeSet;
use std::marker::Model;

/// The names that were taken, in turn, those that are ready, and for each row a place up to which the article's
/// dependencies are known to be at hand.
#[derive(Drop)]
pub struct Taking {
    taken: NameSet,
    ready: BTreeSet<Name>,
    seen: Vec<usize>,
}

impl Model for Taking {
    ghost use Rattle.mz_corpus.specs.Taking.{Taking as TakingValue};

    ghost Value = { TakingValue };

    ghost view = { λ a. record { taken = a.taken; ready = a.ready.keys; seen = a.seen.items } };
}

/// Whether the name is built in or taken.
fn is_at_hand(taken: &NameSet, name: &Name) -> bool
    ensures { result ≡ is_at_hand taken.now name.now }
{
    name.is_built_in() || taken.contains(name)
}

/// The place, from this one on, of the first name that isn't at hand; the length where all are.
fn first_missing(taken: &NameSet, names: &[Name], from: usize) -> usize
    requires within { from ≤ length names.now }
    requires before { list_all (is_at_hand taken.now) (take from names.now) ≡ true }
    ensures within { result ≤ length names.now }
    ensures before { list_all (is_at_hand taken.now) (take result names.now) ≡ true }
    ensures missing { result < length names.now → list_all (is_at_hand taken.now) names.now ≡ false }
{
    let mut at = from;
    while at < names.len() {
        if !is_at_hand(taken, &names[at]) {
            return at;
        }
        at += 1;
    }
    at
}

impl Taking {
    /// Nothing is taken, and nothing was looked at.
    fn begin(alloc: Global, articles: &[Article]) -> Result<Taking, AllocError>
        ensures taken { IfOk result (λ t. t.taken ≡ []) }
        ensures ready { IfOk result (λ t. t.ready ≡ []) }
        ensures seen { IfOk result (λ t. AreSeen articles.now [] t.seen) }
    {
        let seen = vec![in alloc; 0; articles.len()]?;
        Ok(Taking {
            taken: NameSet::new(alloc),
            ready: BTreeSet::new(alloc),
            seen,
        })
    }

    /// Adds the article's name to the ready ones, where its dependencies are at hand and it isn't taken.
    fn add_ready(&mut self, article: &Article, at_hand: bool) -> Result<(), AllocError>
        requires { at_hand ≡ list_all (is_at_hand self.old.taken) article.now.dependencies }
        ensures ready { OnOk result (self.new.ready ≡ with_ready self.old.taken self.old.ready article.now) }
        ensures taken { self.new.taken ≡ self.old.taken }
        ensures seen { self.new.seen ≡ self.old.seen }
    {
        if at_hand && !self.taken.contains(&article.name) {
            self.ready.insert(article.name).map_err(|_| AllocError)?;
        }
        Ok(())
    }

    /// Sets the place up to which the article's dependencies are known to be at hand.
    fn mark(&mut self, row: usize, at: usize)
        requires { row < length self.old.seen }
        ensures { self.new ≡ record self.old { seen = slice_set self.old.seen row at } }
    {
        self.seen[row] = at;
    }

    /// Looks at the article of a row: where it is ready, its name is added.
    fn look(&mut self, articles: &[Article], row: usize) -> Result<(), AllocError>
        requires row { row < length articles.now }
        requires seen { AreSeen articles.now self.old.taken self.old.seen }
        ensures ready { OnOk result (self.new.ready ≡ with_row articles.now self.old.taken self.old.ready row) }
        ensures taken { self.new.taken ≡ self.old.taken }
        ensures seen { AreSeen articles.now self.new.taken self.new.seen }
    {
        let article = &articles[row];
        let names = article.dependencies.as_slice();
        let at = first_missing(&self.taken, names, self.seen[row]);
        self.mark(row, at);
        self.add_ready(article, at == names.len())
    }

    /// Looks at the articles of the rows, in turn.
    fn look_at(&mut self, articles: &[Article], rows: &[usize]) -> Result<(), AllocError>
        requires rows { (r : ℕ) → Contains rows.now r → r < length articles.now }
        requires seen { AreSeen articles.now self.old.taken self.old.seen }
        ensures ready { OnOk result (self.new.ready ≡ with_rows articles.now self.old.taken self.old.ready rows.now) }
        ensures taken { self.new.taken ≡ self.old.taken }
        ensures seen { AreSeen articles.now self.new.taken self.new.seen }
    {
        for row in rows {
            self.look(articles, *row)?;
        }
        Ok(())
    }

    /// The first of the ready names, which is ready no more.
    fn pop(&mut self) -> Option<Name>
        ensures { IsPopped self.old result self.new }
    {
        self.ready.pop_first()
    }

    /// Takes the name, and looks at the articles that depend on it.
    fn take(
        &mut self,
        articles: &[Article],
        dependents: &Dependents,
        name: Name,
    ) -> Result<(), AllocError>
        requires dependents { AreDependents articles.now (rows_at dependents.now.rows) }
        requires seen { AreSeen articles.now self.old.taken self.old.seen }
        ensures taken { OnOk result (self.new.taken ≡ with_name self.old.taken name) }
        ensures ready { OnOk result (self.new.ready ≡ with_rows articles.now (with_name self.old.taken name) self.old.ready (rows_at dependents.now.rows name.number)) }
        ensures seen { OnOk result (AreSeen articles.now self.new.taken self.new.seen) }
    {
        self.taken.insert(name)?;
        self.look_at(articles, dependents.rows(&name))
    }
}

/// The names that can be taken, in turn.
pub fn taken_names(alloc: Global, articles: &[Article]) -> Result<NameSet, AllocError>
    ensures { IfOk result (λ taken. Takes articles.now [] taken) }
{
    let dependents = dependents_of(alloc, articles)?;
    let rows = Rows::up_to(alloc, articles.len())?;
    let mut taking = Taking::begin(alloc, articles)?;
    taking.look_at(articles, rows.items.as_slice())?;
    while let Some(name) = taking.pop() {
        taking.take(articles, &dependents, name)?;
    }
    let Taking { taken, .. } = taking;
    Ok(taken)
}
