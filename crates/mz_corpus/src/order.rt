//! The order in which articles are checked.
ghost use Rattle.std.specs.Prelude.{◌≡◌, IfOk, filter, not};
ghost use Rattle.mz_corpus.specs.Corpus.{names_of};
ghost use Rattle.mz_corpus.specs.Names.{is_among};
ghost use Rattle.mz_corpus.specs.Order.{IsOrder, left_names};

use crate::article::Article;
use crate::ascending::ascending;
use crate::corpus::Corpus;
use crate::name_set::NameSet;
use crate::ordering::Ordering;
use crate::taking::taken_names;
use mz_base::names::Names;
use std::alloc::{AllocError, Global};

/// The names of the articles, in the order of gathering.
fn names_of(alloc: Global, articles: &[Article]) -> Result<Names, AllocError>
    ensures { IfOk result (λ names. names ≡ names_of articles.now) }
{
    let items = articles.iter().map(|a| a.name).collect(alloc)?;
    Ok(Names { items })
}

/// Those of the names that aren't taken.
fn left_of(alloc: Global, names: &Names, taken: &NameSet) -> Result<Names, AllocError>
    ensures { IfOk result (λ left. left ≡ filter (λ n. not (is_among taken.now n)) names.now) }
{
    let items = names
        .items
        .iter()
        .filter(|name| !taken.contains(name))
        .copied()
        .collect(alloc)?;
    Ok(Names { items })
}

/// The names of the articles that aren't taken, in the order of gathering.
fn left_names(alloc: Global, articles: &[Article], taken: &NameSet) -> Result<Names, AllocError>
    ensures { IfOk result (λ left. left ≡ left_names articles.now taken.now) }
{
    let names = names_of(alloc, articles)?;
    left_of(alloc, &names, taken)
}

impl Corpus {
    /// The order in which articles are checked: again and again the first in the order of names that isn't taken and whose
    /// dependencies are all taken or built in. What is left is the rest, in the order of names.
    pub fn order(&self, alloc: Global) -> Result<Ordering, AllocError>
        ensures { IfOk result (IsOrder self.now.articles) }
    {
        let articles = self.articles();
        let taken = taken_names(alloc, articles)?;
        let left = left_names(alloc, articles, &taken)?;
        let rest = ascending(alloc, left.as_slice())?;
        let order = taken.to_names(alloc)?;
        Ok(Ordering { order, rest })
    }
}
