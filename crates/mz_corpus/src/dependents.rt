//! Which articles depend directly on a name.
ghost use Rattle.std.specs.Prelude.{◌≡◌, ◌<◌, ℕ, [], ◌∷◌, IfOk, OnOk, Contains, length};
ghost use Rattle.mz_corpus.specs.Dependents.{HasAdded, AreDependents, rows_at};

use crate::article::Article;
use mz_base::name::Name;
use std::alloc::{AllocError, Global};
use std::collections::BTreeMap;
use std::marker::Model;

/// Rows of articles, from 0.
#[derive(Drop)]
pub struct Rows {
    pub items: Vec<usize>,
}

impl Model for Rows {
    ghost use Rattle.std.specs.Prelude.{ℕ, List};

    ghost Value = { List ℕ };

    ghost view = { λ a. a.items.items };
}

impl Rows {
    /// The rows 0 to `count` - 1.
    pub fn up_to(alloc: Global, count: usize) -> Result<Rows, AllocError>
        ensures all { IfOk result (λ rows. (r : ℕ) → r < count → Contains rows r) }
        ensures within { IfOk result (λ rows. (r : ℕ) → Contains rows r → r < count) }
    {
        let mut items = Vec::new(alloc);
        for row in 0..count {
            items.push(row)?;
        }
        Ok(Rows { items })
    }
}

/// For each name the rows of the articles that depend on it directly.
#[derive(Drop)]
pub struct Dependents {
    /// By the number of the name.
    pub rows: BTreeMap<u64, Rows>,
}

impl Dependents {
    /// No rows. It takes no memory yet.
    pub fn new(alloc: Global) -> Dependents
        ensures { (number : ℕ) → rows_at result.rows number ≡ [] }
    {
        Dependents {
            rows: BTreeMap::new(alloc),
        }
    }

    /// The rows for the name.
    pub fn rows(&self, name: &Name) -> &[usize]
        ensures { result.now ≡ rows_at self.now.rows name.now.number }
    {
        match self.rows.get(&name.number()) {
            Some(rows) => rows.items.as_slice(),
            None => &[],
        }
    }

    /// Takes away the rows for the number.
    fn remove(&mut self, alloc: Global, number: u64) -> Rows
        ensures rows { result ≡ rows_at self.old.rows number }
        ensures others { (q : ℕ) → (q ≡ number → ⊥) → rows_at self.new.rows q ≡ rows_at self.old.rows q }
    {
        match self.rows.remove(&number) {
            Some(rows) => rows,
            None => Rows {
                items: Vec::new(alloc),
            },
        }
    }

    /// Puts the rows for the number in place of those that were there.
    fn insert(&mut self, number: u64, rows: Rows) -> Result<(), AllocError>
        ensures rows { OnOk result (rows_at self.new.rows number ≡ rows) }
        ensures others { OnOk result ((q : ℕ) → (q ≡ number → ⊥) → rows_at self.new.rows q ≡ rows_at self.old.rows q) }
    {
        self.rows.insert(number, rows).map_err(|_| AllocError)?;
        Ok(())
    }

    /// Adds a row for the name.
    pub fn add(&mut self, alloc: Global, name: &Name, row: usize) -> Result<(), AllocError>
        ensures { OnOk result (HasAdded (rows_at self.old.rows) (rows_at self.new.rows) (name.now ∷ []) row) }
    {
        let mut rows = self.remove(alloc, name.number());
        rows.items.push(row)?;
        self.insert(name.number(), rows)?;
        Ok(())
    }

    fn add_article(
        &mut self,
        alloc: Global,
        article: &Article,
        row: usize,
    ) -> Result<(), AllocError>
        ensures { OnOk result (HasAdded (rows_at self.old.rows) (rows_at self.new.rows) article.now.dependencies row) }
    {
        for name in &article.dependencies.items {
            self.add(alloc, name, row)?;
        }
        Ok(())
    }
}

/// For each name the rows of the articles that depend on it directly.
pub fn dependents_of(alloc: Global, articles: &[Article]) -> Result<Dependents, AllocError>
    ensures { IfOk result (λ d. AreDependents articles.now (rows_at d.rows)) }
{
    let mut dependents = Dependents::new(alloc);
    for (row, article) in articles.iter().enumerate() {
        dependents.add_article(alloc, article, row)?;
    }
    Ok(dependents)
}
