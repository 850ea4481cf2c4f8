//! Declared variables.
ghost use Rattle.std.specs.Prelude.{◌≡◌, ◌++◌, ◌∷◌, [], OnOk, OnErr};

use mz_base::text::Text;
use mz_core::soft_type::SoftType;
use std::alloc::{AllocError, Global};
use std::marker::Model;

/// A declared variable: its name and its type, in which the variables declared before it are constants.
#[derive(Drop)]
pub struct Variable {
    pub name: Text,
    pub ty: SoftType,
}

/// Declared variables, in the order of the text.
#[derive(Drop)]
pub struct Variables {
    pub items: Vec<Variable>,
}

impl Model for Variables {
    ghost use Rattle.std.specs.Prelude.{List};
    ghost use Rattle.std.specs.Coded.{coded_list};
    ghost use Rattle.mz_names.specs.declared.variable.Variable.{Variable};
    ghost use Rattle.mz_names.specs.contracts.variable.Variable.{the_row};

    ghost Value = { List Variable };

    ghost coded = { coded_list the_row.coded };

    ghost view = { λ a. a.items.items };
}

impl Variables {
    /// No variables.
    pub fn new(alloc: Global) -> Variables
        ensures { result ≡ [] }
    {
        Variables {
            items: Vec::new(alloc),
        }
    }

    /// Puts one at the end.
    pub fn push(&mut self, x: Variable) -> Result<(), AllocError>
        ensures ok { OnOk result (self.new ≡ self.old ++ x ∷ []) }
        ensures err { OnErr result (self.new ≡ self.old) }
    {
        self.items.push(x)?;
        Ok(())
    }
}
