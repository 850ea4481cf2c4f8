//! Lists of notations by their symbols.
ghost use Rattle.std.specs.Prelude.{◌≡◌, ◌++◌, ◌∷◌, [], map, IfOk, OnOk};
ghost use Rattle.std.specs.List.{filter};
ghost use Rattle.std.specs.Arc.{arc_value};
ghost use Rattle.mz_environment.specs.Keys.{is_spelled};

use crate::keys::BySymbol;
use mz_base::text::Text;
use mz_core::notation::Notation;
use mz_core::notations::Notations;
use mz_table::table::Table;
use std::alloc::{AllocError, Global};
use std::marker::Model;
use std::sync::Arc;

/// Notations, the latest one last, with those of each symbol apart.
pub struct NotationTable {
    table: Table<Vec<u8>, Notation, BySymbol>,
}

impl Drop for NotationTable {
    fn drop(self) {
        let NotationTable { table: _table } = self;
    }
}

impl Model for NotationTable {
    ghost use Rattle.std.specs.Prelude.{List};
    ghost use Rattle.std.specs.Coded.{coded_list};
    ghost use Rattle.mz_core.specs.declared.notation.Notation.{Notation};
    ghost use Rattle.mz_core.specs.contracts.notation.Notation.{the_row};

    ghost Value = { List Notation };

    ghost coded = { coded_list the_row.coded };

    ghost view = { λ a. a.table };
}

impl NotationTable {
    /// None.
    pub fn new(alloc: Global) -> NotationTable
        ensures { result ≡ [] }
    {
        NotationTable {
            table: Table::new(alloc),
        }
    }

    /// All of them, in their order.
    pub fn as_slice(&self) -> &[Arc<Notation>]
        ensures { map arc_value result.now ≡ self.now }
    {
        self.table.as_slice()
    }

    /// The notations that are spelled so, in their order. The others aren't looked at.
    pub fn of<'a>(&'a self, symbol: &Text) -> &'a [Arc<Notation>]
        ensures { map arc_value result.now ≡ filter (is_spelled symbol.now) self.now }
    {
        self.table.of(&symbol.items)
    }

    /// Puts one at the end.
    pub fn push(&mut self, x: Notation) -> Result<(), AllocError>
        ensures { OnOk result (self.new ≡ self.old ++ x ∷ []) }
    {
        self.table.push(x)
    }

    /// Puts others at the end, which are shared.
    pub fn append(&mut self, more: &NotationTable) -> Result<(), AllocError>
        ensures { OnOk result (self.new ≡ self.old ++ more.now) }
    {
        self.table.append_shared(&more.table)
    }
}

/// The same notations.
pub fn notation_table(alloc: Global, xs: Notations) -> Result<NotationTable, AllocError>
    ensures { IfOk result (λ t. t ≡ xs) }
{
    let mut out = NotationTable::new(alloc);
    for x in xs.into_items() {
        out.push(x)?;
    }
    Ok(out)
}
