//! Places by hashes: as long as the hashes of different items differ, how long a look-up takes doesn't grow with the
//! number of places.
ghost use Rattle.std.specs.Prelude.{◌≡◌, ℕ, None, Some, OnOk, OnErr, if◌then◌else◌, nat_eq};
ghost use Rattle.std.specs.Option.{option_copied};
ghost use Rattle.mz_ground.specs.Hash.{hash_with, hash_with_all, hash_with_symbol, place_of};

use mz_logic::sym::Sym;
use std::alloc::{AllocError, Global};
use std::collections::HashMap;

/// A place for each hash that was met.
pub struct HashPlaces {
    places: HashMap<u64, usize>,
}

impl Drop for HashPlaces {
    fn drop(self) {
        let HashPlaces { places: _places } = self;
    }
}

impl HashPlaces {
    /// No places.
    pub fn new(alloc: Global) -> HashPlaces
        ensures { (hash : ℕ) → place_of result hash ≡ None }
    {
        HashPlaces {
            places: HashMap::new(alloc),
        }
    }

    /// The place of a hash.
    pub fn find(&self, hash: u64) -> Option<usize>
        ensures { result ≡ place_of self.now hash }
    {
        self.places.get(&hash).copied()
    }

    /// Gives a hash its place.
    pub fn insert(&mut self, hash: u64, place: usize) -> Result<(), AllocError>
        ensures ok { OnOk result ((other : ℕ) → place_of self.new other ≡ (if nat_eq hash other then Some place else place_of self.old other)) }
        ensures err { OnErr result ((other : ℕ) → place_of self.new other ≡ place_of self.old other) }
    {
        self.places.insert(hash, place)?;
        Ok(())
    }
}

/// A hash with one more number taken into it.
#[tactic(auto, unfolding(crate::specs::Hash::hash_with))]
pub fn hash_with(hash: u64, number: u64) -> u64
    ensures { result ≡ hash_with hash number }
{
    hash.wrapping_mul(1_000_003).wrapping_add(number)
}

/// A hash with these numbers taken into it.
pub fn hash_with_all(hash: u64, numbers: &[usize]) -> u64
    ensures { result ≡ hash_with_all hash numbers.now }
{
    let mut all = hash;
    for number in numbers {
        all = hash_with(all, *number as u64);
    }
    all
}

/// A hash with a symbol taken into it.
pub fn hash_with_symbol(hash: u64, s: Sym) -> u64
    ensures { result ≡ hash_with_symbol hash s }
{
    let named = hash_with(hash, s.article);
    let kinded = hash_with(named, u64::from(s.kind.code()));
    hash_with(kinded, u64::from(s.number))
}
