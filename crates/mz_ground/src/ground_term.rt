//! Ground terms, by the places of their arguments.
ghost use Rattle.std.specs.Prelude.{◌≡◌, ◌↔◌, IsTrue, IfOk};
ghost use Rattle.mz_ground.specs.Hash.{term_hash};

use crate::hash_places::{hash_with, hash_with_all, hash_with_symbol};
use crate::places::Places;
use mz_logic::sym::Sym;
use std::alloc::{AllocError, Global};

/// A ground term: a constant by its number, or a symbol with arguments, each by its place in the list of ground
/// terms.
#[derive(Drop)]
pub enum GroundTerm {
    Const(u32),
    App { sym: Sym, args: Places },
}

impl GroundTerm {
    /// Whether two entries are equal.
    pub fn equals(&self, other: &GroundTerm) -> bool
        ensures { IsTrue result ↔ (self.now ≡ other.now) }
    {
        match (self, other) {
            (GroundTerm::Const(m), GroundTerm::Const(n)) => *m == *n,
            (GroundTerm::App { sym: r, args: a }, GroundTerm::App { sym: s, args: b }) => {
                r.is(*s) && a.equals(b)
            }
            _ => false,
        }
    }

    /// A number by which the entry is found.
    pub fn hash(&self) -> u64
        ensures { result ≡ term_hash self.now }
    {
        match self {
            GroundTerm::Const(number) => hash_with(0, u64::from(*number)),
            GroundTerm::App { sym, args } => hash_with_all(
                hash_with_symbol(1, *sym),
                args.as_slice(),
            ),
        }
    }

    /// An equal entry.
    pub fn copy(&self, alloc: Global) -> Result<GroundTerm, AllocError>
        ensures { IfOk result (λ e. e ≡ self.now) }
    {
        match self {
            GroundTerm::Const(number) => Ok(GroundTerm::Const(*number)),
            GroundTerm::App { sym, args } => {
                let args = args.copy(alloc)?;
                Ok(GroundTerm::App { sym: *sym, args })
            }
        }
    }
}
