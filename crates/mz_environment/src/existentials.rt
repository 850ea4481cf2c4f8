//! Lists of existential registrations.
ghost use Rattle.std.specs.Prelude.{◌≡◌, ◌++◌, ◌∷◌, [], map, OnOk};
ghost use Rattle.std.specs.List.{filter};
ghost use Rattle.std.specs.Arc.{arc_value};
ghost use Rattle.mz_environment.specs.Keys.{registration_has};

use crate::keys::{BySymbol, SymKey, sym_key};
use mz_core::registration::ExistentialRegistration;
use mz_logic::sym::Sym;
use mz_table::table::Table;
use std::alloc::{AllocError, Global};
use std::marker::Model;
use std::sync::Arc;

/// Existential registrations, the latest one last, with those of each radix apart.
pub struct Existentials {
    table: Table<SymKey, ExistentialRegistration, BySymbol>,
}

impl Drop for Existentials {
    fn drop(self) {
        let Existentials { table: _table } = self;
    }
}

impl Model for Existentials {
    ghost use Rattle.std.specs.Prelude.{List};
    ghost use Rattle.std.specs.Coded.{coded_list};
    ghost use Rattle.mz_core.specs.declared.registration.ExistentialRegistration.{ExistentialRegistration};
    ghost use Rattle.mz_core.specs.contracts.registration.ExistentialRegistration.{the_row};

    ghost Value = { List ExistentialRegistration };

    ghost coded = { coded_list the_row.coded };

    ghost view = { λ a. a.table };
}

impl Existentials {
    /// None.
    pub fn new(alloc: Global) -> Existentials
        ensures { result ≡ [] }
    {
        Existentials {
            table: Table::new(alloc),
        }
    }

    /// All of them, in their order.
    pub fn as_slice(&self) -> &[Arc<ExistentialRegistration>]
        ensures { map arc_value result.now ≡ self.now }
    {
        self.table.as_slice()
    }

    /// The registrations of types with the radix's symbol, in their order. The others aren't looked at.
    pub fn of(&self, s: Sym) -> &[Arc<ExistentialRegistration>]
        ensures { map arc_value result.now ≡ filter (registration_has s) self.now }
    {
        self.table.of(&sym_key(s))
    }

    /// Puts one at the end.
    pub fn push(&mut self, x: ExistentialRegistration) -> Result<(), AllocError>
        ensures { OnOk result (self.new ≡ self.old ++ x ∷ []) }
    {
        self.table.push(x)
    }

    /// Puts others at the end, which are shared.
    pub fn append(&mut self, more: &Existentials) -> Result<(), AllocError>
        ensures { OnOk result (self.new ≡ self.old ++ more.now) }
    {
        self.table.append_shared(&more.table)
    }
}
