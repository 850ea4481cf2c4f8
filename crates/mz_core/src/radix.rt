//! Radices of types.
ghost use Rattle.std.specs.Prelude.{◌≡◌, ◌↔◌, IsTrue, IfOk};

use mz_logic::sym::Sym;
use mz_logic::term::Terms;
use std::alloc::{AllocError, Global};

/// A mode or a structure with its arguments.
#[derive(Drop)]
pub struct Radix {
    pub sym: Sym,
    pub args: Terms,
}

impl Radix {
    /// An equal radix.
    pub fn copy(&self, alloc: Global) -> Result<Radix, AllocError>
        ensures { IfOk result (λ r. r ≡ self.now) }
    {
        let args = self.args.copy(alloc)?;
        Ok(Radix {
            sym: self.sym,
            args,
        })
    }

    /// Whether the radices are equal.
    pub fn equals(&self, other: &Radix) -> bool
        ensures { IsTrue result ↔ (self.now ≡ other.now) }
    {
        self.sym.is(other.sym) && self.args.equals(&other.args)
    }
}
