//! Reserved variables.
ghost use Rattle.std.specs.Prelude.{◌≡◌, ◌++◌, ◌∷◌, [], OnOk, OnErr};

use mz_base::text::Text;
use mz_core::soft_type::SoftType;
use std::alloc::{AllocError, Global};
use std::marker::Model;

/// A reserved variable: its name and its type.
#[derive(Drop)]
pub struct ReservedVariable {
    pub name: Text,
    pub ty: SoftType,
}

/// Reserved variables, in the order of the text.
#[derive(Drop)]
pub struct ReservedVariables {
    pub items: Vec<ReservedVariable>,
}

impl Model for ReservedVariables {
    ghost use Rattle.std.specs.Prelude.{List};
    ghost use Rattle.std.specs.Coded.{coded_list};
    ghost use Rattle.mz_context.specs.declared.reserved.ReservedVariable.{ReservedVariable};
    ghost use Rattle.mz_context.specs.contracts.reserved.ReservedVariable.{the_row};

    ghost Value = { List ReservedVariable };

    ghost coded = { coded_list the_row.coded };

    ghost view = { λ a. a.items.items };
}

impl ReservedVariables {
    /// No reserved variables.
    pub fn new(alloc: Global) -> ReservedVariables
        ensures { result ≡ [] }
    {
        ReservedVariables {
            items: Vec::new(alloc),
        }
    }

    /// Puts one at the end.
    pub fn push(&mut self, x: ReservedVariable) -> Result<(), AllocError>
        ensures ok { OnOk result (self.new ≡ self.old ++ x ∷ []) }
        ensures err { OnErr result (self.new ≡ self.old) }
    {
        self.items.push(x)?;
        Ok(())
    }
}
