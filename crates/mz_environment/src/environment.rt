//! Environments.
ghost use Rattle.std.specs.Prelude.{◌≡◌, IfOk, OnOk};
ghost use Rattle.mz_environment.specs.Cited.{numbered};
ghost use Rattle.mz_environment.specs.Environment.{no_environment, joined, of_item};

use crate::cited::{CitedSchemes, CitedStatements};
use crate::existentials::Existentials;
use crate::join::join;
use crate::notation_table::NotationTable;
use crate::numbering::Numbering;
use crate::rows::Rows;
use crate::shares::put_item;
use crate::structures::Structures;
use crate::syms::Syms;
use crate::unfoldings::Unfoldings;
use mz_core::item::Item;
use mz_ground::clauses::Clauses;
use std::alloc::{AllocError, Global};

/// What a reading and a step may use. Each list is in its order, the latest one last: what other articles
/// gave, and behind it what the article itself has stated. What a symbol has is found without a look at the others
/// (`of`).
pub struct Environment {
    /// The types of functors' applications.
    pub functors: Rows,
    /// The parents of modes.
    pub modes: Rows,
    pub structures: Structures,
    /// The modes all of whose objects are in one set.
    pub sethoods: Syms,
    pub notations: NotationTable,
    /// The clauses by which types fit, and which `by` uses, too.
    pub typing: Clauses,
    /// Clauses that `by` uses.
    pub further: Clauses,
    /// The clauses of definitions by `equals`, which `by` uses.
    pub equalities: Clauses,
    /// The unfoldings that a proof's steps use.
    pub steps: Unfoldings,
    /// The unfoldings that `by` uses.
    pub expansions: Unfoldings,
    /// The registrations that cover a type's adjectives.
    pub registrations: Existentials,
    /// The theorems and definitional theorems that may be cited.
    pub theorems: CitedStatements,
    /// The schemes that may be cited.
    pub schemes: CitedSchemes,
}

impl Drop for Environment {
    fn drop(self) {
        let Environment {
            functors: _functors,
            modes: _modes,
            structures: _structures,
            sethoods: _sethoods,
            notations: _notations,
            typing: _typing,
            further: _further,
            equalities: _equalities,
            steps: _steps,
            expansions: _expansions,
            registrations: _registrations,
            theorems: _theorems,
            schemes: _schemes,
        } = self;
    }
}

impl Environment {
    /// An environment with nothing.
    pub fn new(alloc: Global) -> Environment
        ensures { result ≡ no_environment }
    {
        Environment {
            functors: Rows::new(alloc),
            modes: Rows::new(alloc),
            structures: Structures::new(alloc),
            sethoods: Syms::new(alloc),
            notations: NotationTable::new(alloc),
            typing: Clauses::new(alloc),
            further: Clauses::new(alloc),
            equalities: Clauses::new(alloc),
            steps: Unfoldings::new(alloc),
            expansions: Unfoldings::new(alloc),
            registrations: Existentials::new(alloc),
            theorems: CitedStatements::new(alloc),
            schemes: CitedSchemes::new(alloc),
        }
    }

    /// An equal environment, which shares all entries but clauses and symbols.
    pub fn copy(&self, alloc: Global) -> Result<Environment, AllocError>
        ensures { IfOk result (λ e. e ≡ self.now) }
    {
        let mut out = Environment::new(alloc);
        join(alloc, &mut out, self)?;
        Ok(out)
    }

    /// Adds all that an item gives, behind what is there; `at` is where the item stands in its article, and then
    /// where the next one does.
    pub fn add(&mut self, alloc: Global, at: &mut Numbering, item: &Item) -> Result<(), AllocError>
        ensures given { OnOk result (self.new ≡ joined self.old (of_item at.old item.now)) }
        ensures next { OnOk result (at.new ≡ numbered at.old item.now) }
    {
        let next = at.after(item)?;
        put_item(alloc, self, *at, item)?;
        *at = next;
        Ok(())
    }
}
