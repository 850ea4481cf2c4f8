//! The letters of a scheme.
ghost use Rattle.std.specs.Prelude.{◌≡◌, ◌++◌, ◌∷◌, [], OnOk, OnErr};

use mz_base::text::Text;
use mz_core::scheme::SchemeLetter;
use std::alloc::{AllocError, Global};
use std::marker::Model;

/// A letter of a scheme that is in force, with its name.
#[derive(Drop)]
pub struct NamedLetter {
    pub name: Text,
    pub letter: SchemeLetter,
}

/// Letters, in the order of their declaration.
#[derive(Drop)]
pub struct NamedLetters {
    pub items: Vec<NamedLetter>,
}

impl Model for NamedLetters {
    ghost use Rattle.std.specs.Prelude.{List};
    ghost use Rattle.std.specs.Coded.{coded_list};
    ghost use Rattle.mz_context.specs.declared.letters.NamedLetter.{NamedLetter};
    ghost use Rattle.mz_context.specs.contracts.letters.NamedLetter.{the_row};

    ghost Value = { List NamedLetter };

    ghost coded = { coded_list the_row.coded };

    ghost view = { λ a. a.items.items };
}

impl NamedLetters {
    /// No letters.
    pub fn new(alloc: Global) -> NamedLetters
        ensures { result ≡ [] }
    {
        NamedLetters {
            items: Vec::new(alloc),
        }
    }

    /// Puts one at the end.
    pub fn push(&mut self, x: NamedLetter) -> Result<(), AllocError>
        ensures ok { OnOk result (self.new ≡ self.old ++ x ∷ []) }
        ensures err { OnErr result (self.new ≡ self.old) }
    {
        self.items.push(x)?;
        Ok(())
    }
}
