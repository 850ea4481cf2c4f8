//! Verdicts on articles, as the report tells them.

use crate::fault::Faults;
use mz_base::name::Name;
use std::marker::Model;

/// What is said of an article.
#[derive(Clone, Copy, Debug)]
pub enum Verdict {
    /// It was checked without a fault.
    Accepted,
    /// It was checked and has faults.
    Rejected,
    /// It is the first of its dependencies, in the order of names, whose verdict isn't accepted.
    Blocked(Name),
    /// It is among its own dependencies.
    Cyclic,
    /// There is no such text.
    Missing,
}

/// How many items of each kind an accepted article has; all 0 for other verdicts.
#[derive(Clone, Copy, Debug)]
pub struct Counts {
    pub theorems: u32,
    pub definitions: u32,
    pub registrations: u32,
    pub schemes: u32,
}

/// An article and what is said of it. There is no verdict while the article isn't settled.
pub struct Entry {
    pub name: Name,
    pub verdict: Option<Verdict>,
    pub counts: Counts,
    pub faults: Faults,
}

impl Drop for Entry {
    fn drop(self) {
        let Entry {
            name: _name,
            verdict: _verdict,
            counts: _counts,
            faults: _faults,
        } = self;
    }
}

/// Articles and what is said of them.
pub struct Verdicts {
    pub items: Vec<Entry>,
}

impl Drop for Verdicts {
    fn drop(self) {
        let Verdicts { items: _items } = self;
    }
}

impl Model for Verdicts {
    ghost use Rattle.std.specs.Prelude.{List};
    ghost use Rattle.std.specs.Coded.{coded_list};
    ghost use Rattle.mz_core.specs.declared.verdict.Entry.{Entry};
    ghost use Rattle.mz_core.specs.contracts.verdict.Entry.{the_row};

    ghost Value = { List Entry };

    ghost coded = { coded_list the_row.coded };

    ghost view = { λ a. a.items.items };
}
