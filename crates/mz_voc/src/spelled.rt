//! Values by spelling.
ghost use Rattle.std.specs.Prelude.{◌≡◌, if◌then◌else◌, List, ℕ, Some, None, OnOk};
ghost use Rattle.std.specs.Option.{option_copied};
ghost use Rattle.std.specs.Str.{bytes_eq};
ghost use Rattle.mz_voc.specs.Spelled.{value_of};

use std::alloc::{AllocError, Global};
use std::collections::HashMap;

/// Values by spelling. How long a look-up takes doesn't grow with their number.
#[derive(Drop)]
pub struct Spelled<V: Drop> {
    values: HashMap<Vec<u8>, V>,
}

impl<V: Drop> Spelled<V> {
    /// No values, which take no memory yet.
    pub fn new(alloc: Global) -> Spelled<V>
        ensures { (spelling : List ℕ) → value_of result spelling ≡ None }
    {
        Spelled {
            values: HashMap::new(alloc),
        }
    }

    /// The value of the spelling.
    pub fn get(&self, spelling: &[u8]) -> Option<&V>
        ensures { option_copied result ≡ value_of self.now spelling.now }
    {
        self.values.get(spelling)
    }

    /// Gives the spelling this value in place of the one that it had, if any.
    ///
    /// # Errors
    /// `AllocError` where there wasn't enough memory.
    pub fn insert(&mut self, alloc: Global, spelling: &[u8], value: V) -> Result<(), AllocError>
        ensures { OnOk result ((other : List ℕ) → value_of self.new other ≡ if bytes_eq spelling.now other then Some value else value_of self.old other) }
    {
        let key = Vec::from_slice(alloc, spelling)?;
        self.values.insert(key, value)?;
        Ok(())
    }
}
