//! Values by arguments.
ghost use Rattle.std.specs.Prelude.{◌≡◌, ℕ, List, OnOk, if◌then◌else◌};
ghost use Rattle.mz_match.specs.Values.{value_at, is_list};
ghost use Rattle.mz_match.specs.declared.value.Value.TheVariants.{Nothing};

use crate::value::Value;
use std::alloc::{AllocError, Global};
use std::collections::HashMap;

/// What is known of the class of arguments; of those that aren't listed, that no row has them.
#[derive(Drop)]
pub struct Values {
    map: HashMap<Vec<usize>, Value>,
}

impl Values {
    /// No arguments are listed.
    pub fn new(alloc: Global) -> Values
        ensures { (s : List ℕ) → value_at result s ≡ Nothing }
    {
        Values {
            map: HashMap::new(alloc),
        }
    }

    /// What is known of the class of arguments.
    pub fn find(&self, args: &[usize]) -> Value
        ensures { result ≡ value_at self.now args.now }
    {
        match self.map.get(args) {
            Some(known) => *known,
            None => Value::Nothing,
        }
    }

    /// Lists arguments.
    pub fn insert(&mut self, args: Vec<usize>, known: Value) -> Result<(), AllocError>
        ensures { OnOk result ((s : List ℕ) → value_at self.new s ≡ (if is_list s args.items then known else value_at self.old s)) }
    {
        self.map.insert(args, known)?;
        Ok(())
    }
}
