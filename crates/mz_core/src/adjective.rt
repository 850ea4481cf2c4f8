//! Adjectives of types.
ghost use Rattle.std.specs.Prelude.{◌≡◌, ◌↔◌, IsTrue, IfOk};

use mz_logic::sym::Sym;
use mz_logic::term::Terms;
use std::alloc::{AllocError, Global};

/// An attribute with its arguments but for the subject; not positive where it is written with `non`.
pub struct Adjective {
    pub positive: bool,
    pub sym: Sym,
    pub args: Terms,
}

impl Drop for Adjective {
    fn drop(self) {
        let Adjective {
            positive: _positive,
            sym: _sym,
            args: _args,
        } = self;
    }
}

impl Adjective {
    /// An equal adjective.
    pub fn copy(&self, alloc: Global) -> Result<Adjective, AllocError>
        ensures { IfOk result (λ a. a ≡ self.now) }
    {
        let args = self.args.copy(alloc)?;
        Ok(Adjective {
            positive: self.positive,
            sym: self.sym,
            args,
        })
    }

    /// Whether the adjectives are equal.
    pub fn equals(&self, other: &Adjective) -> bool
        ensures { IsTrue result ↔ (self.now ≡ other.now) }
    {
        self.positive == other.positive && self.sym.is(other.sym) && self.args.equals(&other.args)
    }
}
