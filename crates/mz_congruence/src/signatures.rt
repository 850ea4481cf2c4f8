//! A table of signatures: the lists of numbers that were met, each with a place.
ghost use Rattle.std.specs.Prelude.{◌≡◌, ℕ, List, None, Some, IfOk, OnOk, if◌then◌else◌};
ghost use Rattle.std.specs.Option.{option_copied};
ghost use Rattle.mz_congruence.specs.Signature.{place_of, is_list};

use std::alloc::{AllocError, Global};
use std::collections::HashMap;

/// Places of nodes, by their signatures.
#[derive(Drop)]
pub struct Signatures {
    places: HashMap<Vec<usize>, usize>,
}

impl Signatures {
    /// No signature.
    pub fn new(alloc: Global) -> Signatures
        ensures { (s : List ℕ) → place_of result s ≡ None }
    {
        Signatures {
            places: HashMap::new(alloc),
        }
    }

    /// The place of a signature.
    pub fn find(&self, signature: &[usize]) -> Option<usize>
        ensures { result ≡ place_of self.now signature.now }
    {
        self.places.get(signature).copied()
    }

    /// Gives a signature its place.
    pub fn insert(&mut self, signature: Vec<usize>, place: usize) -> Result<(), AllocError>
        ensures { OnOk result ((s : List ℕ) → place_of self.new s ≡ (if is_list s signature.items then Some place else place_of self.old s)) }
    {
        self.places.insert(signature, place)?;
        Ok(())
    }
}
