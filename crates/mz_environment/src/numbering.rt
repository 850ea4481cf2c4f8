//! The numbers by which the items of an article are cited.
ghost use Rattle.std.specs.Prelude.{◌≡◌, IfOk};
ghost use Rattle.mz_environment.specs.Cited.{counted, at_start, numbered};

use crate::cited::{has_definitional_theorem, is_scheme, is_theorem};
use mz_core::item::Item;
use std::alloc::AllocError;

/// How many theorems, definitional theorems and schemes of an article stand above a place, with the number of
/// its name.
#[derive(Clone, Copy, Debug, PartialEq, Eq)]
pub struct Numbering {
    pub article: u64,
    pub theorems: u64,
    pub definitions: u64,
    pub schemes: u64,
}

/// One more, where the item counts. No more than 2^64 - 1 of them, or it is as no memory.
fn one_more(count: u64, counts: bool) -> Result<u64, AllocError>
    ensures { IfOk result (λ n. n ≡ counted count counts) }
{
    if counts {
        count.checked_add(1).ok_or(AllocError)
    } else {
        Ok(count)
    }
}

impl Numbering {
    /// An article's numbers at its start.
    pub fn of_article(article: u64) -> Numbering
        ensures { result ≡ at_start article }
    {
        Numbering {
            article,
            theorems: 0,
            definitions: 0,
            schemes: 0,
        }
    }

    /// The numbers behind an item.
    pub fn after(&self, item: &Item) -> Result<Numbering, AllocError>
        ensures { IfOk result (λ n. n ≡ numbered self.now item.now) }
    {
        let theorems = one_more(self.theorems, is_theorem(item))?;
        let definitions = one_more(self.definitions, has_definitional_theorem(item))?;
        let schemes = one_more(self.schemes, is_scheme(item))?;
        Ok(Numbering {
            article: self.article,
            theorems,
            definitions,
            schemes,
        })
    }
}
