//! Lists of structures.
ghost use Rattle.std.specs.Prelude.{◌≡◌, ◌++◌, ◌∷◌, [], map, OnOk};
ghost use Rattle.std.specs.List.{filter};
ghost use Rattle.std.specs.Arc.{arc_value};
ghost use Rattle.mz_environment.specs.Keys.{structure_has};

use crate::keys::{BySymbol, SymKey, sym_key};
use mz_core::structure::Structure;
use mz_logic::sym::Sym;
use mz_table::table::Table;
use std::alloc::{AllocError, Global};
use std::marker::Model;
use std::sync::Arc;

/// Structures, the latest one last, with those of each symbol apart.
pub struct Structures {
    table: Table<SymKey, Structure, BySymbol>,
}

impl Drop for Structures {
    fn drop(self) {
        let Structures { table: _table } = self;
    }
}

impl Model for Structures {
    ghost use Rattle.std.specs.Prelude.{List};
    ghost use Rattle.std.specs.Coded.{coded_list};
    ghost use Rattle.mz_core.specs.declared.structure.Structure.{Structure};
    ghost use Rattle.mz_core.specs.contracts.structure.Structure.{the_row};

    ghost Value = { List Structure };

    ghost coded = { coded_list the_row.coded };

    ghost view = { λ a. a.table };
}

impl Structures {
    /// None.
    pub fn new(alloc: Global) -> Structures
        ensures { result ≡ [] }
    {
        Structures {
            table: Table::new(alloc),
        }
    }

    /// All of them, in their order.
    pub fn as_slice(&self) -> &[Arc<Structure>]
        ensures { map arc_value result.now ≡ self.now }
    {
        self.table.as_slice()
    }

    /// The structures with the symbol, in their order. The others aren't looked at.
    pub fn of(&self, s: Sym) -> &[Arc<Structure>]
        ensures { map arc_value result.now ≡ filter (structure_has s) self.now }
    {
        self.table.of(&sym_key(s))
    }

    /// Puts one at the end.
    pub fn push(&mut self, x: Structure) -> Result<(), AllocError>
        ensures { OnOk result (self.new ≡ self.old ++ x ∷ []) }
    {
        self.table.push(x)
    }

    /// Puts others at the end, which are shared.
    pub fn append(&mut self, more: &Structures) -> Result<(), AllocError>
        ensures { OnOk result (self.new ≡ self.old ++ more.now) }
    {
        self.table.append_shared(&more.table)
    }
}
