//! Ground atoms, by the places of their arguments.
ghost use Rattle.std.specs.Prelude.{◌≡◌, ◌↔◌, IsTrue, IfOk};
ghost use Rattle.mz_ground.specs.Hash.{atom_hash};

use crate::hash_places::{hash_with_all, hash_with_symbol};
use crate::places::Places;
use mz_logic::sym::Sym;
use std::alloc::{AllocError, Global};

/// A ground atom: a symbol with arguments, each by its place in the list of ground terms.
pub struct GroundAtom {
    pub sym: Sym,
    pub args: Places,
}

impl Drop for GroundAtom {
    fn drop(self) {
        let GroundAtom {
            sym: _sym,
            args: _args,
        } = self;
    }
}

impl GroundAtom {
    /// Whether two entries are equal.
    pub fn equals(&self, other: &GroundAtom) -> bool
        ensures { IsTrue result ↔ (self.now ≡ other.now) }
    {
        self.sym.is(other.sym) && self.args.equals(&other.args)
    }

    /// A number by which the entry is found.
    pub fn hash(&self) -> u64
        ensures { result ≡ atom_hash self.now }
    {
        hash_with_all(hash_with_symbol(0, self.sym), self.args.as_slice())
    }

    /// An equal entry.
    pub fn copy(&self, alloc: Global) -> Result<GroundAtom, AllocError>
        ensures { IfOk result (λ e. e ≡ self.now) }
    {
        let args = self.args.copy(alloc)?;
        Ok(GroundAtom {
            sym: self.sym,
            args,
        })
    }
}
