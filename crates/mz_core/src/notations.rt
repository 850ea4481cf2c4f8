//! Lists of notations.
ghost use Rattle.std.specs.Prelude.{◌≡◌, ◌++◌, ◌∷◌, [], IfOk, OnOk, OnErr};

use crate::notation::Notation;
use std::alloc::{AllocError, Global};
use std::marker::Model;

/// Notations, in the order of the text.
pub struct Notations {
    pub items: Vec<Notation>,
}

impl Drop for Notations {
    fn drop(self) {
        let Notations { items: _items } = self;
    }
}

impl Model for Notations {
    ghost use Rattle.std.specs.Prelude.{List};
    ghost use Rattle.std.specs.Coded.{coded_list};
    ghost use Rattle.mz_core.specs.declared.notation.Notation.{Notation};
    ghost use Rattle.mz_core.specs.contracts.notation.Notation.{the_row};

    ghost Value = { List Notation };

    ghost coded = { coded_list the_row.coded };

    ghost view = { λ a. a.items.items };
}

impl Notations {
    /// No notations.
    pub fn new(alloc: Global) -> Notations
        ensures { result ≡ [] }
    {
        Notations {
            items: Vec::new(alloc),
        }
    }

    /// The notations of a list that is given up.
    pub fn into_items(self) -> Vec<Notation>
        ensures { result.items ≡ self }
    {
        let Notations { items } = self;
        items
    }

    /// Puts a notation at the end.
    pub fn push(&mut self, x: Notation) -> Result<(), AllocError>
        ensures ok { OnOk result (self.new ≡ self.old ++ x ∷ []) }
        ensures err { OnErr result (self.new ≡ self.old) }
    {
        self.items.push(x)?;
        Ok(())
    }

    /// An equal list.
    pub fn copy(&self, alloc: Global) -> Result<Notations, AllocError>
        ensures { IfOk result (λ xs. xs ≡ self.now) }
    {
        let mut out = Vec::new(alloc);
        for x in &self.items {
            out.push(x.copy(alloc)?)?;
        }
        Ok(Notations { items: out })
    }
}
