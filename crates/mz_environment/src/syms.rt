//! Lists of symbols.
ghost use Rattle.std.specs.Prelude.{◌≡◌, ◌++◌, ◌∷◌, [], OnOk, OnErr};

use mz_logic::sym::Sym;
use std::alloc::{AllocError, Global};
use std::marker::Model;

/// Symbols, the latest one last.
pub struct Syms {
    pub items: Vec<Sym>,
}

impl Drop for Syms {
    fn drop(self) {
        let Syms { items: _items } = self;
    }
}

impl Model for Syms {
    ghost use Rattle.std.specs.Prelude.{List};
    ghost use Rattle.mz_logic.specs.declared.sym.Sym.{Sym};

    ghost Value = { List Sym };

    ghost view = { λ a. a.items.items };
}

impl Syms {
    /// None.
    pub fn new(alloc: Global) -> Syms
        ensures { result ≡ [] }
    {
        Syms {
            items: Vec::new(alloc),
        }
    }

    /// Puts one at the end.
    pub fn push(&mut self, x: Sym) -> Result<(), AllocError>
        ensures ok { OnOk result (self.new ≡ self.old ++ x ∷ []) }
        ensures err { OnErr result (self.new ≡ self.old) }
    {
        self.items.push(x)?;
        Ok(())
    }
}
