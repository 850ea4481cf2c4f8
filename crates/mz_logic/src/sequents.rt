//! Lists of sequents.
ghost use Rattle.std.specs.Prelude.{◌≡◌, ◌<◌, [], ◌∷◌, ◌++◌, length, slice_get, Some, IfOk, OnOk, OnErr};

use crate::sequent::Sequent;
use std::alloc::{AllocError, Global};
use std::marker::Model;

/// A list of sequents.
pub struct Sequents {
    pub items: Vec<Sequent>,
}

impl Drop for Sequents {
    fn drop(self) {
        let Sequents { items: _items } = self;
    }
}

impl Model for Sequents {
    ghost use Rattle.std.specs.Prelude.{List};
    ghost use Rattle.std.specs.Coded.{coded_list};
    ghost use Rattle.mz_logic.specs.declared.sequent.Sequent.{Sequent};
    ghost use Rattle.mz_logic.specs.contracts.sequent.Sequent.{the_row};

    ghost Value = { List Sequent };

    ghost coded = { coded_list the_row.coded };

    ghost view = { λ a. a.items.items };
}

impl Sequents {
    /// No sequents.
    pub fn new(alloc: Global) -> Sequents
        ensures { result ≡ [] }
    {
        Sequents {
            items: Vec::new(alloc),
        }
    }

    /// How many there are.
    pub fn len(&self) -> usize
        ensures { result ≡ length self.now }
    {
        self.items.len()
    }

    /// The sequent at an index from 0.
    pub fn get(&self, index: usize) -> &Sequent
        requires { index < length self.now }
        ensures { slice_get self.now index ≡ Some result.now }
    {
        &self.items[index]
    }

    /// Puts a sequent at the end.
    pub fn push(&mut self, s: Sequent) -> Result<(), AllocError>
        ensures ok { OnOk result (self.new ≡ self.old ++ s ∷ []) }
        ensures err { OnErr result (self.new ≡ self.old) }
    {
        self.items.push(s)?;
        Ok(())
    }

    /// An equal list.
    pub fn copy(&self, alloc: Global) -> Result<Sequents, AllocError>
        ensures { IfOk result (λ ss. ss ≡ self.now) }
    {
        let mut out = Vec::new(alloc);
        for s in &self.items {
            out.push(s.copy(alloc)?)?;
        }
        Ok(Sequents { items: out })
    }
}
