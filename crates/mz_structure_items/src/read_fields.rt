//! Lists of fields as read.
ghost use Rattle.std.specs.Prelude.{◌≡◌, ◌++◌, ◌∷◌, [], OnOk, OnErr};

use mz_field_items::fields::ReadField;
use std::alloc::{AllocError, Global};
use std::marker::Model;

/// Fields as read, in the order of the text.
pub struct ReadFields {
    pub items: Vec<ReadField>,
}

impl Drop for ReadFields {
    fn drop(self) {
        let ReadFields { items: _items } = self;
    }
}

impl Model for ReadFields {
    ghost use Rattle.std.specs.Prelude.{List};
    ghost use Rattle.std.specs.Coded.{coded_list};
    ghost use Rattle.mz_field_items.specs.declared.fields.ReadField.{ReadField};
    ghost use Rattle.mz_field_items.specs.contracts.fields.ReadField.{the_row};

    ghost Value = { List ReadField };

    ghost coded = { coded_list the_row.coded };

    ghost view = { λ a. a.items.items };
}

impl ReadFields {
    /// None.
    pub fn new(alloc: Global) -> ReadFields
        ensures { result ≡ [] }
    {
        ReadFields {
            items: Vec::new(alloc),
        }
    }

    /// Puts one at the end.
    pub fn push(&mut self, x: ReadField) -> Result<(), AllocError>
        ensures ok { OnOk result (self.new ≡ self.old ++ x ∷ []) }
        ensures err { OnErr result (self.new ≡ self.old) }
    {
        self.items.push(x)?;
        Ok(())
    }
}
