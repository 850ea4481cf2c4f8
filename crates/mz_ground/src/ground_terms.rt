//! Lists of ground terms.
ghost use Rattle.std.specs.Prelude.{◌≡◌, ◌<◌, ℕ, [], ◌∷◌, ◌++◌, length, slice_get, Some, MatchOption, IfOk, OnOk, OnErr, IsTrue};
ghost use Rattle.mz_ground.specs.Hash.{term_hash};
ghost use Rattle.mz_ground.specs.Table.{IsPlaced};
ghost use Rattle.mz_ground.specs.declared.ground_term.GroundTerm.{GroundTerm};

use crate::ground_term::GroundTerm;
use crate::hash_places::HashPlaces;
use std::alloc::{AllocError, Global};
use std::marker::Model;

/// A list of ground terms.
pub struct GroundTerms {
    pub items: Vec<GroundTerm>,
    /// Where items stand, by their hashes.
    places: HashPlaces,
}

impl Drop for GroundTerms {
    fn drop(self) {
        let GroundTerms {
            items: _items,
            places: _places,
        } = self;
    }
}

impl Model for GroundTerms {
    ghost use Rattle.std.specs.Prelude.{List};
    ghost use Rattle.std.specs.Coded.{coded_list};
    ghost use Rattle.mz_ground.specs.declared.ground_term.GroundTerm.{GroundTerm};
    ghost use Rattle.mz_ground.specs.contracts.ground_term.GroundTerm.{the_row};

    ghost Value = { List GroundTerm };

    ghost coded = { coded_list the_row.coded };

    ghost view = { λ a. a.items.items };

    ghost use Rattle.mz_ground.specs.Hash.{AreHashed, term_hash};

    ghost invariant = { λ a. AreHashed term_hash a.items.items a.places };
}

impl GroundTerms {
    /// An empty list.
    pub fn new(alloc: Global) -> GroundTerms
        ensures { result ≡ [] }
    {
        GroundTerms {
            items: Vec::new(alloc),
            places: HashPlaces::new(alloc),
        }
    }

    /// How many there are.
    pub fn len(&self) -> usize
        ensures { result ≡ length self.now }
    {
        self.items.len()
    }

    /// The one at a place, from 0.
    pub fn get(&self, place: usize) -> &GroundTerm
        requires { place < length self.now }
        ensures { slice_get self.now place ≡ Some result.now }
    {
        &self.items[place]
    }

    /// Puts one at the end.
    #[tactic(auto, using(crate::proofs::HashLemmas::hashed_rules))]
    pub(crate) fn push(&mut self, item: GroundTerm) -> Result<(), AllocError>
        ensures ok { OnOk result (self.new ≡ self.old ++ item ∷ []) }
        ensures err { OnErr result (self.new ≡ self.old) }
    {
        self.places.insert(item.hash(), self.items.len())?;
        self.items.push(item)?;
        Ok(())
    }

    /// The place of an item, which is put at the end where the list lacks it.
    pub(crate) fn place(&mut self, item: GroundTerm) -> Result<usize, AllocError>
        ensures { IfOk result (λ k. IsPlaced self.old item self.new k) }
    {
        match self.find(&item) {
            Some(place) => Ok(place),
            None => {
                let place = self.items.len();
                self.push(item)?;
                Ok(place)
            }
        }
    }

    /// Where an item with the hash may stand; there is none where no item has it.
    #[tactic(auto, using(crate::proofs::HashLemmas::hashed_rules))]
    pub fn candidate(&self, hash: u64) -> Option<usize>
        ensures { MatchOption result ((k : ℕ) (item : GroundTerm) → slice_get self.now k ≡ Some item → term_hash item ≡ hash → ⊥) (λ place. Unit {0}) }
    {
        self.places.find(hash)
    }

    /// The place of an item, if the list has it.
    #[tactic(auto, using(crate::proofs::HashLemmas::hashed_rules))]
    pub fn find(&self, item: &GroundTerm) -> Option<usize>
        ensures { MatchOption result ((k : ℕ) → slice_get self.now k ≡ Some item.now → ⊥) (λ k. slice_get self.now k ≡ Some item.now) }
    {
        match self.places.find(item.hash()) {
            Some(place) => {
                if self.has_at(place, item) {
                    Some(place)
                } else {
                    self.first(item)
                }
            }
            None => None,
        }
    }

    fn has_at(&self, place: usize, item: &GroundTerm) -> bool
        ensures { IsTrue result → slice_get self.now place ≡ Some item.now }
    {
        match self.items.get(place) {
            Some(other) => other.equals(item),
            None => false,
        }
    }

    // The first place of an item, sought from the beginning: another item with its hash may stand in its stead.
    fn first(&self, item: &GroundTerm) -> Option<usize>
        ensures { MatchOption result ((k : ℕ) → slice_get self.now k ≡ Some item.now → ⊥) (λ k. slice_get self.now k ≡ Some item.now) }
    {
        for k in 0..self.items.len() {
            if self.items[k].equals(item) {
                return Some(k);
            }
        }
        None
    }

    /// An equal list.
    pub fn copy(&self, alloc: Global) -> Result<GroundTerms, AllocError>
        ensures { IfOk result (λ items. items ≡ self.now) }
    {
        let mut out = GroundTerms::new(alloc);
        for item in &self.items {
            out.push(item.copy(alloc)?)?;
        }
        Ok(out)
    }
}
