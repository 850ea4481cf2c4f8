//! Lists of ground equations.
ghost use Rattle.std.specs.Prelude.{◌≡◌, ◌<◌, ℕ, [], ◌∷◌, ◌++◌, length, slice_get, Some, MatchOption, IfOk, OnOk, OnErr, IsTrue};
ghost use Rattle.mz_ground.specs.Table.{IsPlaced};

use crate::ground_equation::GroundEquation;
use crate::hash_places::HashPlaces;
use std::alloc::{AllocError, Global};
use std::marker::Model;

/// A list of ground equations.
pub struct GroundEquations {
    pub items: Vec<GroundEquation>,
    /// Where items stand, by their hashes.
    places: HashPlaces,
}

impl Drop for GroundEquations {
    fn drop(self) {
        let GroundEquations {
            items: _items,
            places: _places,
        } = self;
    }
}

impl Model for GroundEquations {
    ghost use Rattle.std.specs.Prelude.{List};
    ghost use Rattle.std.specs.Coded.{coded_list};
    ghost use Rattle.mz_ground.specs.declared.ground_equation.GroundEquation.{GroundEquation};
    ghost use Rattle.mz_ground.specs.contracts.ground_equation.GroundEquation.{the_row};

    ghost Value = { List GroundEquation };

    ghost coded = { coded_list the_row.coded };

    ghost view = { λ a. a.items.items };

    ghost use Rattle.mz_ground.specs.Hash.{AreHashed, equation_hash};

    ghost invariant = { λ a. AreHashed equation_hash a.items.items a.places };
}

impl GroundEquations {
    /// An empty list.
    pub fn new(alloc: Global) -> GroundEquations
        ensures { result ≡ [] }
    {
        GroundEquations {
            items: Vec::new(alloc),
            places: HashPlaces::new(alloc),
        }
    }

    /// How many there are.
    pub fn len(&self) -> usize
        ensures { result ≡ length self.now }
    {
        self.items.len()
    }

    /// The one at a place, from 0.
    pub fn get(&self, place: usize) -> &GroundEquation
        requires { place < length self.now }
        ensures { slice_get self.now place ≡ Some result.now }
    {
        &self.items[place]
    }

    /// Puts one at the end.
    #[tactic(auto, using(crate::proofs::HashLemmas::hashed_rules))]
    pub(crate) fn push(&mut self, item: GroundEquation) -> Result<(), AllocError>
        ensures ok { OnOk result (self.new ≡ self.old ++ item ∷ []) }
        ensures err { OnErr result (self.new ≡ self.old) }
    {
        self.places.insert(item.hash(), self.items.len())?;
        self.items.push(item)?;
        Ok(())
    }

    /// The place of an item, which is put at the end where the list lacks it.
    pub(crate) fn place(&mut self, item: GroundEquation) -> Result<usize, AllocError>
        ensures { IfOk result (λ k. IsPlaced self.old item self.new k) }
    {
        match self.find(&item) {
            Some(place) => Ok(place),
            None => {
                let place = self.items.len();
                self.push(item)?;
                Ok(place)
            }
        }
    }

    /// The place of an item, if the list has it.
    #[tactic(auto, using(crate::proofs::HashLemmas::hashed_rules))]
    pub fn find(&self, item: &GroundEquation) -> Option<usize>
        ensures { MatchOption result ((k : ℕ) → slice_get self.now k ≡ Some item.now → ⊥) (λ k. slice_get self.now k ≡ Some item.now) }
    {
        match self.places.find(item.hash()) {
            Some(place) => {
                if self.has_at(place, item) {
                    Some(place)
                } else {
                    self.first(item)
                }
            }
            None => None,
        }
    }

    fn has_at(&self, place: usize, item: &GroundEquation) -> bool
        ensures { IsTrue result → slice_get self.now place ≡ Some item.now }
    {
        match self.items.get(place) {
            Some(other) => other.equals(item),
            None => false,
        }
    }

    // The first place of an item, sought from the beginning: another item with its hash may stand in its stead.
    fn first(&self, item: &GroundEquation) -> Option<usize>
        ensures { MatchOption result ((k : ℕ) → slice_get self.now k ≡ Some item.now → ⊥) (λ k. slice_get self.now k ≡ Some item.now) }
    {
        for k in 0..self.items.len() {
            if self.items[k].equals(item) {
                return Some(k);
            }
        }
        None
    }

    /// An equal list.
    pub fn copy(&self, alloc: Global) -> Result<GroundEquations, AllocError>
        ensures { IfOk result (λ items. items ≡ self.now) }
    {
        let mut out = GroundEquations::new(alloc);
        for item in &self.items {
            out.push(*item)?;
        }
        Ok(out)
    }
}
