//! Lists of numbers.
ghost use Rattle.std.specs.Prelude.{◌≡◌, ◌↔◌, ◌++◌, ◌∷◌, [], length, IsTrue, IfOk, OnOk, OnErr, Contains};

use std::alloc::{AllocError, Global};
use std::marker::Model;

/// A list of numbers.
#[derive(Debug, Drop)]
pub struct Numbers {
    /// The numbers, in order.
    pub items: Vec<u64>,
}

impl Model for Numbers {
    ghost use Rattle.std.specs.Prelude.{List, ℕ};

    ghost Value = { List ℕ };

    ghost view = { λ a. a.items.items };
}

impl Numbers {
    /// A list without numbers, which takes no memory yet.
    pub fn new(alloc: Global) -> Numbers
        ensures { result ≡ [] }
    {
        Numbers {
            items: Vec::new(alloc),
        }
    }

    /// These numbers.
    pub fn from_slice(alloc: Global, numbers: &[u64]) -> Result<Numbers, AllocError>
        ensures { IfOk result (λ list. list ≡ numbers.now) }
    {
        let items = Vec::from_slice(alloc, numbers)?;
        Ok(Numbers { items })
    }

    /// How many numbers there are.
    pub fn len(&self) -> usize
        ensures { result ≡ length self.now }
    {
        self.items.len()
    }

    /// Whether there is no number.
    pub fn is_empty(&self) -> bool
        ensures { IsTrue result ↔ (self.now ≡ []) }
    {
        self.items.is_empty()
    }

    /// The numbers.
    pub fn as_slice(&self) -> &[u64]
        ensures { result.now ≡ self.now }
    {
        self.items.as_slice()
    }

    /// Whether the number is in the list.
    pub fn contains(&self, number: u64) -> bool
        ensures { IsTrue result ↔ Contains self.now number }
    {
        self.items.contains(&number)
    }

    /// Adds one number at the end.
    pub fn push(&mut self, number: u64) -> Result<(), AllocError>
        ensures ok { OnOk result (self.new ≡ self.old ++ number ∷ []) }
        ensures err { OnErr result (self.new ≡ self.old) }
    {
        self.items.push(number)?;
        Ok(())
    }
}

#[cfg(test)]
mod tests {
    use super::*;

    #[test]
    fn grows(rt: HostRuntime) {
        let mut numbers = Numbers::from_slice(rt.alloc(), &[3, 1]).expect(&rt, "memory");
        numbers.push(2).expect(&rt, "memory");
        assert!(rt; numbers.as_slice() == [3, 1, 2].as_slice());
        assert!(rt; numbers.contains(2));
        assert!(rt; !numbers.contains(4));
    }
}
