//! Faults of an article.
ghost use Rattle.std.specs.Prelude.{◌≡◌, ◌++◌, ◌∷◌, [], OnOk, OnErr};

use mz_base::place::Place;
use mz_base::rule_code::RuleCode;
use std::alloc::{AllocError, Global};
use std::marker::Model;

/// A fault of an article: where it is, its code, and the number that comes with the code, if one does.
#[derive(Clone, Copy, Debug, PartialEq, Eq)]
pub struct Fault {
    pub place: Place,
    pub code: RuleCode,
    pub number: Option<u64>,
}

/// Faults. Those of a checked article are in the order of the text.
pub struct Faults {
    pub items: Vec<Fault>,
}

impl Drop for Faults {
    fn drop(self) {
        let Faults { items: _items } = self;
    }
}

impl Model for Faults {
    ghost use Rattle.std.specs.Prelude.{List};
    ghost use Rattle.std.specs.Coded.{coded_list};
    ghost use Rattle.mz_core.specs.declared.fault.Fault.{Fault};
    ghost use Rattle.mz_core.specs.contracts.fault.Fault.{the_row};

    ghost Value = { List Fault };

    ghost coded = { coded_list the_row.coded };

    ghost view = { λ a. a.items.items };
}

impl Faults {
    /// No faults.
    pub fn new(alloc: Global) -> Faults
        ensures { result ≡ [] }
    {
        Faults {
            items: Vec::new(alloc),
        }
    }

    /// Puts a fault at the end.
    pub fn push(&mut self, x: Fault) -> Result<(), AllocError>
        ensures ok { OnOk result (self.new ≡ self.old ++ x ∷ []) }
        ensures err { OnErr result (self.new ≡ self.old) }
    {
        self.items.push(x)?;
        Ok(())
    }
}
