//! Lists of adjectives.
ghost use Rattle.std.specs.Prelude.{◌≡◌, ◌↔◌, IsTrue, ◌++◌, ◌∷◌, [], IfOk, OnOk, OnErr};

use crate::adjective::Adjective;
use std::alloc::{AllocError, Global};
use std::marker::Model;

/// Adjectives, in the order of the text.
pub struct Adjectives {
    pub items: Vec<Adjective>,
}

impl Drop for Adjectives {
    fn drop(self) {
        let Adjectives { items: _items } = self;
    }
}

impl Model for Adjectives {
    ghost use Rattle.std.specs.Prelude.{List};
    ghost use Rattle.std.specs.Coded.{coded_list};
    ghost use Rattle.mz_core.specs.declared.adjective.Adjective.{Adjective};
    ghost use Rattle.mz_core.specs.contracts.adjective.Adjective.{the_row};

    ghost Value = { List Adjective };

    ghost coded = { coded_list the_row.coded };

    ghost view = { λ a. a.items.items };
}

impl Adjectives {
    /// No adjectives.
    pub fn new(alloc: Global) -> Adjectives
        ensures { result ≡ [] }
    {
        Adjectives {
            items: Vec::new(alloc),
        }
    }

    /// Puts an adjective at the end.
    pub fn push(&mut self, x: Adjective) -> Result<(), AllocError>
        ensures ok { OnOk result (self.new ≡ self.old ++ x ∷ []) }
        ensures err { OnErr result (self.new ≡ self.old) }
    {
        self.items.push(x)?;
        Ok(())
    }

    /// An equal list.
    pub fn copy(&self, alloc: Global) -> Result<Adjectives, AllocError>
        ensures { IfOk result (λ xs. xs ≡ self.now) }
    {
        let mut out = Vec::new(alloc);
        for x in &self.items {
            out.push(x.copy(alloc)?)?;
        }
        Ok(Adjectives { items: out })
    }

    /// Whether the lists are equal.
    pub fn equals(&self, other: &Adjectives) -> bool
        ensures { IsTrue result ↔ (self.now ≡ other.now) }
    {
        if self.items.len() != other.items.len() {
            return false;
        }
        for i in 0..self.items.len() {
            if !self.items[i].equals(&other.items[i]) {
                return false;
            }
        }
        true
    }
}
