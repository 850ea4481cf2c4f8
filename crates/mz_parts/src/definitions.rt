//! Lists of names for terms.
ghost use Rattle.std.specs.Prelude.{◌≡◌, ◌++◌, ◌∷◌, [], OnOk, OnErr};

use mz_steps::read_step::Definition;
use std::alloc::{AllocError, Global};
use std::marker::Model;

/// Names for terms, in the order of the text.
#[derive(Drop)]
pub struct Definitions {
    pub items: Vec<Definition>,
}

impl Model for Definitions {
    ghost use Rattle.std.specs.Prelude.{List};
    ghost use Rattle.std.specs.Coded.{coded_list};
    ghost use Rattle.mz_steps.specs.declared.read_step.Definition.{Definition};
    ghost use Rattle.mz_steps.specs.contracts.read_step.Definition.{the_row};

    ghost Value = { List Definition };

    ghost coded = { coded_list the_row.coded };

    ghost view = { λ a. a.items.items };
}

impl Definitions {
    /// No names.
    pub fn new(alloc: Global) -> Definitions
        ensures { result ≡ [] }
    {
        Definitions {
            items: Vec::new(alloc),
        }
    }

    /// Puts one at the end.
    pub fn push(&mut self, x: Definition) -> Result<(), AllocError>
        ensures ok { OnOk result (self.new ≡ self.old ++ x ∷ []) }
        ensures err { OnErr result (self.new ≡ self.old) }
    {
        self.items.push(x)?;
        Ok(())
    }
}
