//! Places by hashes of heads, in lists that several hashes may share.
ghost use Rattle.std.specs.Prelude.{◌≡◌, ◌<◌, ◌%◌, ◌++◌, ℕ, [], ◌∷◌, length, nat_eq, if◌then◌else◌, IfOk, OnOk};
ghost use Rattle.mz_ground.specs.Heads.{list_at, places_of};

use crate::places::Places;
use std::alloc::{AllocError, Global};
use std::marker::Model;

/// Lists of places: a place stands in the list that the hash of its head has.
pub struct HeadPlaces {
    lists: Vec<Places>,
}

impl Drop for HeadPlaces {
    fn drop(self) {
        let HeadPlaces { lists: _lists } = self;
    }
}

impl Model for HeadPlaces {
    ghost use Rattle.std.specs.Prelude.{List, ℕ};
    ghost use Rattle.std.specs.Coded.{coded_list};
    ghost use Rattle.mz_ground.specs.contracts.places.Places.{the_row};

    ghost Value = { List (List ℕ) };

    ghost coded = { coded_list the_row.coded };

    ghost view = { λ a. a.lists.items };
}

impl HeadPlaces {
    /// One empty list, and as many more as the count.
    pub fn new(alloc: Global, count: usize) -> Result<HeadPlaces, AllocError>
        ensures { IfOk result (λ x. (0 < length x) × ((k : ℕ) → list_at x k ≡ [])) }
    {
        let mut lists = Vec::new(alloc);
        lists.push(Places::new(alloc))?;
        'lists: for _ in 0..count {
            lists.push(Places::new(alloc))?;
        }
        Ok(HeadPlaces { lists })
    }

    fn number(&self, hash: u64) -> usize
        requires { 0 < length self.now }
        ensures is { result ≡ hash % length self.now }
        ensures within { result < length self.now }
    {
        (hash % self.lists.len() as u64) as usize
    }

    /// The places that may have a head with the hash.
    pub fn get(&self, hash: u64) -> &[usize]
        requires { 0 < length self.now }
        ensures { result.now ≡ places_of self.now hash }
    {
        let number = self.number(hash);
        self.lists[number].as_slice()
    }

    /// Puts a place at the end of the list of a hash.
    pub fn push(&mut self, hash: u64, place: usize) -> Result<(), AllocError>
        requires { 0 < length self.old }
        ensures len { length self.new ≡ length self.old }
        ensures ok { OnOk result ((k : ℕ) → list_at self.new k ≡ (if nat_eq k (hash % length self.old) then list_at self.old k ++ place ∷ [] else list_at self.old k)) }
    {
        let number = self.number(hash);
        self.lists[number].push(place)
    }
}
