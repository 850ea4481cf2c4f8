//! Lists of clauses.
ghost use Rattle.std.specs.Prelude.{◌≡◌, ◌<◌, [], ◌∷◌, ◌++◌, length, slice_get, take, Some, IfOk, OnOk, OnErr};

use crate::clause::Clause;
use std::alloc::{AllocError, Global};
use std::marker::Model;

/// A list of clauses.
pub struct Clauses {
    pub items: Vec<Clause>,
}

impl Drop for Clauses {
    fn drop(self) {
        let Clauses { items: _items } = self;
    }
}

impl Model for Clauses {
    ghost use Rattle.std.specs.Prelude.{List};
    ghost use Rattle.std.specs.Coded.{coded_list};
    ghost use Rattle.mz_ground.specs.declared.clause.Clause.{Clause};
    ghost use Rattle.mz_ground.specs.contracts.clause.Clause.{the_row};

    ghost Value = { List Clause };

    ghost coded = { coded_list the_row.coded };

    ghost view = { λ a. a.items.items };
}

impl Clauses {
    /// No clauses.
    pub fn new(alloc: Global) -> Clauses
        ensures { result ≡ [] }
    {
        Clauses {
            items: Vec::new(alloc),
        }
    }

    /// How many there are.
    pub fn len(&self) -> usize
        ensures { result ≡ length self.now }
    {
        self.items.len()
    }

    /// The clause at an index from 0.
    pub fn get(&self, index: usize) -> &Clause
        requires { index < length self.now }
        ensures { slice_get self.now index ≡ Some result.now }
    {
        &self.items[index]
    }

    /// The clauses.
    pub fn as_slice(&self) -> &[Clause]
        ensures { result.now ≡ self.now }
    {
        self.items.as_slice()
    }

    /// The first `count` clauses; all of them where there are no more.
    pub fn first(&self, count: usize) -> &[Clause]
        ensures { result.now ≡ take count self.now }
    {
        &self.items[..count.min(self.items.len())]
    }

    /// Puts a clause at the end.
    pub fn push(&mut self, c: Clause) -> Result<(), AllocError>
        ensures ok { OnOk result (self.new ≡ self.old ++ c ∷ []) }
        ensures err { OnErr result (self.new ≡ self.old) }
    {
        self.items.push(c)?;
        Ok(())
    }

    /// An equal list.
    pub fn copy(&self, alloc: Global) -> Result<Clauses, AllocError>
        ensures { IfOk result (λ items. items ≡ self.now) }
    {
        let mut out = Vec::new(alloc);
        for item in &self.items {
            out.push(item.copy(alloc)?)?;
        }
        Ok(Clauses { items: out })
    }
}
