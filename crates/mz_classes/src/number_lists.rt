//! Lists of numbers, each at a place.
ghost use Rattle.std.specs.Prelude.{◌≡◌, ◌<◌, ◌+◌, ℕ, [], ◌∷◌, ◌++◌, length, nat_eq, if◌then◌else◌, MatchOption, IfOk, OnOk};
ghost use Rattle.mz_classes.specs.Numbers.{list_at};

use crate::numbers::Numbers;
use std::alloc::{AllocError, Global};
use std::marker::Model;

/// Lists of numbers, each at a place from 0.
#[derive(Drop)]
pub struct NumberLists {
    items: Vec<Numbers>,
}

impl Model for NumberLists {
    ghost use Rattle.std.specs.Prelude.{List, ℕ};
    ghost use Rattle.std.specs.Coded.{coded_list};
    ghost use Rattle.mz_classes.specs.contracts.numbers.Numbers.{the_row};

    ghost Value = { List (List ℕ) };

    ghost coded = { coded_list the_row.coded };

    ghost view = { λ a. a.items.items };
}

impl NumberLists {
    /// No list.
    pub fn new(alloc: Global) -> NumberLists
        ensures { result ≡ [] }
    {
        NumberLists {
            items: Vec::new(alloc),
        }
    }

    /// How many lists there are.
    pub fn len(&self) -> usize
        ensures { result ≡ length self.now }
    {
        self.items.len()
    }

    /// The list at a place, if there is one.
    pub fn get(&self, place: usize) -> Option<&Numbers>
        ensures { MatchOption result (list_at self.now place ≡ []) (λ xs. xs.now ≡ list_at self.now place) }
    {
        self.items.get(place)
    }

    /// Puts an empty list at the end.
    pub fn add(&mut self, alloc: Global) -> Result<(), AllocError>
        ensures { OnOk result (self.new ≡ self.old ++ [] ∷ []) }
    {
        self.items.push(Numbers::new(alloc))?;
        Ok(())
    }

    /// Puts a number at the end of the list at a place.
    pub fn push(&mut self, place: usize, number: u32) -> Result<(), AllocError>
        requires { place < length self.old }
        ensures len { length self.new ≡ length self.old }
        ensures ok { OnOk result ((k : ℕ) → list_at self.new k ≡ (if nat_eq k place then list_at self.old k ++ number ∷ [] else list_at self.old k)) }
    {
        self.items[place].push(number)
    }
}
