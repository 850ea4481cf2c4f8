//! Lists of types.
ghost use Rattle.std.specs.Prelude.{◌≡◌, ◌↔◌, IsTrue, ◌++◌, ◌∷◌, [], IfOk, OnOk, OnErr};

use crate::soft_type::SoftType;
use std::alloc::{AllocError, Global};
use std::marker::Model;

/// Types, in the order of the text.
pub struct SoftTypes {
    pub items: Vec<SoftType>,
}

impl Drop for SoftTypes {
    fn drop(self) {
        let SoftTypes { items: _items } = self;
    }
}

impl Model for SoftTypes {
    ghost use Rattle.std.specs.Prelude.{List};
    ghost use Rattle.std.specs.Coded.{coded_list};
    ghost use Rattle.mz_core.specs.declared.soft_type.SoftType.{SoftType};
    ghost use Rattle.mz_core.specs.contracts.soft_type.SoftType.{the_row};

    ghost Value = { List SoftType };

    ghost coded = { coded_list the_row.coded };

    ghost view = { λ a. a.items.items };
}

impl SoftTypes {
    /// No types.
    pub fn new(alloc: Global) -> SoftTypes
        ensures { result ≡ [] }
    {
        SoftTypes {
            items: Vec::new(alloc),
        }
    }

    /// Puts a type at the end.
    pub fn push(&mut self, x: SoftType) -> Result<(), AllocError>
        ensures ok { OnOk result (self.new ≡ self.old ++ x ∷ []) }
        ensures err { OnErr result (self.new ≡ self.old) }
    {
        self.items.push(x)?;
        Ok(())
    }

    /// An equal list.
    pub fn copy(&self, alloc: Global) -> Result<SoftTypes, AllocError>
        ensures { IfOk result (λ xs. xs ≡ self.now) }
    {
        let mut out = Vec::new(alloc);
        for x in &self.items {
            out.push(x.copy(alloc)?)?;
        }
        Ok(SoftTypes { items: out })
    }

    /// Whether the lists are equal.
    pub fn equals(&self, other: &SoftTypes) -> bool
        ensures { IsTrue result ↔ (self.now ≡ other.now) }
    {
        if self.items.len() != other.items.len() {
            return false;
        }
        for i in 0..self.items.len() {
            if !self.items[i].equals(&other.items[i]) {
                return false;
            }
        }
        true
    }
}
