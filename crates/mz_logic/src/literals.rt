//! Lists of literals.
ghost use Rattle.std.specs.Prelude.{◌≡◌, ◌<◌, [], ◌∷◌, ◌++◌, length, slice_get, Some, IfOk, OnOk, OnErr};

use crate::literal::Literal;
use std::alloc::{AllocError, Global};
use std::marker::Model;

/// A list of literals.
#[derive(Drop)]
pub struct Literals {
    pub items: Vec<Literal>,
}

impl Model for Literals {
    ghost use Rattle.std.specs.Prelude.{List};
    ghost use Rattle.std.specs.Coded.{coded_list};
    ghost use Rattle.mz_logic.specs.declared.literal.Literal.{Literal};
    ghost use Rattle.mz_logic.specs.contracts.literal.Literal.{the_row};

    ghost Value = { List Literal };

    ghost coded = { coded_list the_row.coded };

    ghost view = { λ a. a.items.items };
}

impl Literals {
    /// No literals.
    pub fn new(alloc: Global) -> Literals
        ensures { result ≡ [] }
    {
        Literals {
            items: Vec::new(alloc),
        }
    }

    /// How many there are.
    pub fn len(&self) -> usize
        ensures { result ≡ length self.now }
    {
        self.items.len()
    }

    /// The literal at an index from 0.
    pub fn get(&self, index: usize) -> &Literal
        requires { index < length self.now }
        ensures { slice_get self.now index ≡ Some result.now }
    {
        &self.items[index]
    }

    /// Puts a literal at the end.
    pub fn push(&mut self, l: Literal) -> Result<(), AllocError>
        ensures ok { OnOk result (self.new ≡ self.old ++ l ∷ []) }
        ensures err { OnErr result (self.new ≡ self.old) }
    {
        self.items.push(l)?;
        Ok(())
    }

    /// An equal list.
    pub fn copy(&self, alloc: Global) -> Result<Literals, AllocError>
        ensures { IfOk result (λ ls. ls ≡ self.now) }
    {
        let mut out = Vec::new(alloc);
        for l in &self.items {
            out.push(l.copy(alloc)?)?;
        }
        Ok(Literals { items: out })
    }
}
