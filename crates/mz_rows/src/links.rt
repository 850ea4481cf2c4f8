//! The rows of direct dependencies.
ghost use Rattle.std.specs.Prelude.{◌≡◌, ◌≤◌, ◌<◌, map, length, IfOk, Some};
ghost use Rattle.mz_turns.specs.Dependencies.{place_of, direct_rows};

use mz_base::name::Name;
use mz_corpus::article::Article;
use mz_corpus::corpus::Corpus;
use std::alloc::{AllocError, Global};
use std::marker::Model;

/// Numbers of rows.
#[derive(Drop)]
pub struct RowNumbers {
    pub items: Vec<usize>,
}

impl Model for RowNumbers {
    ghost use Rattle.std.specs.Prelude.{List, ℕ};

    ghost Value = { List ℕ };

    ghost view = { λ a. a.items.items };
}

/// For each article the rows of its direct dependencies, in the order of names.
#[derive(Drop)]
pub struct Links {
    pub items: Vec<RowNumbers>,
}

impl Model for Links {
    ghost use Rattle.std.specs.Prelude.{List, ℕ};

    ghost Value = { List (List ℕ) };

    ghost view = { λ a. a.items.items };
}

/// The row of the article with the name; where there is none, how many there are.
pub fn place_of(articles: &[Article], name: &Name) -> usize
    ensures place { result ≡ place_of articles.now name.now }
    ensures within { result ≤ length articles.now }
{
    match articles.split_first() {
        None => 0,
        Some((a, rest)) => {
            if a.name.number == name.number {
                0
            } else {
                place_of(rest, name) + 1
            }
        }
    }
}

/// The rows of the articles with these names.
fn places_of(alloc: Global, articles: &[Article], names: &[Name]) -> Result<RowNumbers, AllocError>
    ensures { IfOk result (λ rows. rows ≡ map (place_of articles.now) names.now) }
{
    let mut items = Vec::new(alloc);
    for name in names {
        items.push(place_of(articles, name))?;
    }
    Ok(RowNumbers { items })
}

impl Links {
    /// The rows of the direct dependencies of each article.
    pub fn new(alloc: Global, corpus: &Corpus) -> Result<Links, AllocError>
        ensures { IfOk result (λ links. links ≡ map (direct_rows corpus.now.articles) corpus.now.articles) }
    {
        let articles = corpus.articles();
        let mut items = Vec::new(alloc);
        for a in articles {
            let rows = places_of(alloc, articles, a.direct.as_slice())?;
            items.push(rows)?;
        }
        Ok(Links { items })
    }
}
