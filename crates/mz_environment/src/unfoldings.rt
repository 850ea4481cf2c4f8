//! Lists of unfoldings.
ghost use Rattle.std.specs.Prelude.{◌≡◌, ◌++◌, ◌∷◌, [], map, OnOk};
ghost use Rattle.std.specs.List.{filter};
ghost use Rattle.std.specs.Arc.{arc_value};
ghost use Rattle.mz_environment.specs.Keys.{has_head};

use crate::keys::{BySymbol, SymKey, sym_key};
use mz_core::soft_types::SoftTypes;
use mz_core::statement::Statement;
use mz_ground::trigger::Trigger;
use mz_logic::sym::Sym;
use mz_table::table::Table;
use std::alloc::{AllocError, Global};
use std::marker::Model;
use std::sync::Arc;

/// Under the loci, what the head says is as much as the definiens: an atom, or for a term the equation of the
/// last locus with it. A mode's atom has its subject as the last locus, too.
pub struct Unfolding {
    pub loci: SoftTypes,
    pub head: Trigger,
    pub definiens: Statement,
}

impl Drop for Unfolding {
    fn drop(self) {
        let Unfolding {
            loci: _loci,
            head: _head,
            definiens: _definiens,
        } = self;
    }
}

/// Unfoldings, the latest one last, with those of each symbol apart.
pub struct Unfoldings {
    table: Table<Option<SymKey>, Unfolding, BySymbol>,
}

impl Drop for Unfoldings {
    fn drop(self) {
        let Unfoldings { table: _table } = self;
    }
}

impl Model for Unfoldings {
    ghost use Rattle.std.specs.Prelude.{List};
    ghost use Rattle.std.specs.Coded.{coded_list};
    ghost use Rattle.mz_environment.specs.declared.unfoldings.Unfolding.{Unfolding};
    ghost use Rattle.mz_environment.specs.contracts.unfoldings.Unfolding.{the_row};

    ghost Value = { List Unfolding };

    ghost coded = { coded_list the_row.coded };

    ghost view = { λ a. a.table };
}

impl Unfoldings {
    /// None.
    pub fn new(alloc: Global) -> Unfoldings
        ensures { result ≡ [] }
    {
        Unfoldings {
            table: Table::new(alloc),
        }
    }

    /// All of them, in their order.
    pub fn as_slice(&self) -> &[Arc<Unfolding>]
        ensures { map arc_value result.now ≡ self.now }
    {
        self.table.as_slice()
    }

    /// The unfoldings of applications or atoms of the symbol, in their order. The others aren't looked at.
    pub fn of(&self, s: Sym) -> &[Arc<Unfolding>]
        ensures { map arc_value result.now ≡ filter (has_head s) self.now }
    {
        self.table.of(&Some(sym_key(s)))
    }

    /// Puts one at the end.
    pub fn push(&mut self, x: Unfolding) -> Result<(), AllocError>
        ensures { OnOk result (self.new ≡ self.old ++ x ∷ []) }
    {
        self.table.push(x)
    }

    /// Puts others at the end, which are shared.
    pub fn append(&mut self, more: &Unfoldings) -> Result<(), AllocError>
        ensures { OnOk result (self.new ≡ self.old ++ more.now) }
    {
        self.table.append_shared(&more.table)
    }
}
