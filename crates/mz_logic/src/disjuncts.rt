//! Lists of disjuncts.
ghost use Rattle.std.specs.Prelude.{◌≡◌, ◌<◌, [], ◌∷◌, ◌++◌, length, slice_get, Some, IfOk, OnOk, OnErr};

use crate::disjunct::Disjunct;
use std::alloc::{AllocError, Global};
use std::marker::Model;

/// A list of disjuncts.
#[derive(Drop)]
pub struct Disjuncts {
    pub items: Vec<Disjunct>,
}

impl Model for Disjuncts {
    ghost use Rattle.std.specs.Prelude.{List};
    ghost use Rattle.std.specs.Coded.{coded_list};
    ghost use Rattle.mz_logic.specs.declared.disjunct.Disjunct.{Disjunct};
    ghost use Rattle.mz_logic.specs.contracts.disjunct.Disjunct.{the_row};

    ghost Value = { List Disjunct };

    ghost coded = { coded_list the_row.coded };

    ghost view = { λ a. a.items.items };
}

impl Disjuncts {
    /// No disjuncts.
    pub fn new(alloc: Global) -> Disjuncts
        ensures { result ≡ [] }
    {
        Disjuncts {
            items: Vec::new(alloc),
        }
    }

    /// How many there are.
    pub fn len(&self) -> usize
        ensures { result ≡ length self.now }
    {
        self.items.len()
    }

    /// The disjunct at an index from 0.
    pub fn get(&self, index: usize) -> &Disjunct
        requires { index < length self.now }
        ensures { slice_get self.now index ≡ Some result.now }
    {
        &self.items[index]
    }

    /// Puts a disjunct at the end.
    pub fn push(&mut self, d: Disjunct) -> Result<(), AllocError>
        ensures ok { OnOk result (self.new ≡ self.old ++ d ∷ []) }
        ensures err { OnErr result (self.new ≡ self.old) }
    {
        self.items.push(d)?;
        Ok(())
    }

    /// An equal list.
    pub fn copy(&self, alloc: Global) -> Result<Disjuncts, AllocError>
        ensures { IfOk result (λ ds. ds ≡ self.now) }
    {
        let mut out = Vec::new(alloc);
        for d in &self.items {
            out.push(d.copy(alloc)?)?;
        }
        Ok(Disjuncts { items: out })
    }
}
