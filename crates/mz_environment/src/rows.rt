//! Lists of rows.
ghost use Rattle.std.specs.Prelude.{◌≡◌, ◌++◌, ◌∷◌, [], map, OnOk};
ghost use Rattle.std.specs.List.{filter};
ghost use Rattle.std.specs.Arc.{arc_value};
ghost use Rattle.mz_environment.specs.Keys.{row_has};

use crate::keys::{BySymbol, SymKey, sym_key};
use mz_core::soft_type::SoftType;
use mz_core::soft_types::SoftTypes;
use mz_logic::sym::Sym;
use mz_logic::term::Terms;
use mz_table::table::Table;
use std::alloc::{AllocError, Global};
use std::marker::Model;
use std::sync::Arc;

/// Under the loci, the symbol at the arguments has the type: a functor's application is of it, or it is a parent
/// of the mode.
pub struct Row {
    pub loci: SoftTypes,
    pub sym: Sym,
    pub args: Terms,
    pub ty: SoftType,
}

impl Drop for Row {
    fn drop(self) {
        let Row {
            loci: _loci,
            sym: _sym,
            args: _args,
            ty: _ty,
        } = self;
    }
}

/// Rows, the latest one last, with those of each symbol apart.
pub struct Rows {
    table: Table<SymKey, Row, BySymbol>,
}

impl Drop for Rows {
    fn drop(self) {
        let Rows { table: _table } = self;
    }
}

impl Model for Rows {
    ghost use Rattle.std.specs.Prelude.{List};
    ghost use Rattle.std.specs.Coded.{coded_list};
    ghost use Rattle.mz_environment.specs.declared.rows.Row.{Row};
    ghost use Rattle.mz_environment.specs.contracts.rows.Row.{the_row};

    ghost Value = { List Row };

    ghost coded = { coded_list the_row.coded };

    ghost view = { λ a. a.table };
}

impl Rows {
    /// None.
    pub fn new(alloc: Global) -> Rows
        ensures { result ≡ [] }
    {
        Rows {
            table: Table::new(alloc),
        }
    }

    /// All of them, in their order.
    pub fn as_slice(&self) -> &[Arc<Row>]
        ensures { map arc_value result.now ≡ self.now }
    {
        self.table.as_slice()
    }

    /// The rows of the symbol, in their order. The others aren't looked at.
    pub fn of(&self, s: Sym) -> &[Arc<Row>]
        ensures { map arc_value result.now ≡ filter (row_has s) self.now }
    {
        self.table.of(&sym_key(s))
    }

    /// Puts one at the end.
    pub fn push(&mut self, x: Row) -> Result<(), AllocError>
        ensures { OnOk result (self.new ≡ self.old ++ x ∷ []) }
    {
        self.table.push(x)
    }

    /// Puts others at the end, which are shared.
    pub fn append(&mut self, more: &Rows) -> Result<(), AllocError>
        ensures { OnOk result (self.new ≡ self.old ++ more.now) }
    {
        self.table.append_shared(&more.table)
    }
}
