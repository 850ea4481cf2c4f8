//! Lists of numbers of ground terms or atoms.
ghost use Rattle.std.specs.Prelude.{◌≡◌, [], ◌∷◌, ◌++◌, OnOk, OnErr, MatchOption};
ghost use Rattle.mz_classes.specs.Numbers.{first_of};

use std::alloc::{AllocError, Global};
use std::marker::Model;

/// Numbers of ground terms or of ground atoms.
#[derive(Drop)]
pub struct Numbers {
    pub items: Vec<u32>,
}

impl Model for Numbers {
    ghost use Rattle.std.specs.Prelude.{ℕ, List};

    ghost Value = { List ℕ };

    ghost view = { λ a. a.items.items };
}

impl Numbers {
    /// No number.
    pub fn new(alloc: Global) -> Numbers
        ensures { result ≡ [] }
    {
        Numbers {
            items: Vec::new(alloc),
        }
    }

    /// The numbers.
    pub fn as_slice(&self) -> &[u32]
        ensures { result.now ≡ self.now }
    {
        self.items.as_slice()
    }

    /// The first number.
    pub fn first(&self) -> Option<u32>
        ensures { result ≡ first_of self.now }
    {
        self.items.first().copied()
    }

    /// Puts a number at the end.
    pub fn push(&mut self, number: u32) -> Result<(), AllocError>
        ensures ok { OnOk result (self.new ≡ self.old ++ number ∷ []) }
        ensures err { OnErr result (self.new ≡ self.old) }
    {
        self.items.push(number)?;
        Ok(())
    }
}
