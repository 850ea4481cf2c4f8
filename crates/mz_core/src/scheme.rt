//! Schemes.
ghost use Rattle.std.specs.Prelude.{◌≡◌, ◌++◌, ◌∷◌, [], OnOk, OnErr};

use crate::soft_type::SoftType;
use crate::soft_types::SoftTypes;
use crate::statement::Statement;
use crate::statements::Statements;
use mz_logic::sym::Sym;
use std::alloc::{AllocError, Global};
use std::marker::Model;

/// A letter of a scheme, with the types of its places; a functor letter has a type itself, which
/// stands under its places.
pub enum SchemeLetter {
    OfFunctor(Sym, SoftTypes, SoftType),
    OfPredicate(Sym, SoftTypes),
}

impl Drop for SchemeLetter {
    fn drop(self) {
        match self {
            SchemeLetter::OfFunctor(_sym, _types, _ty) => {}
            SchemeLetter::OfPredicate(_sym, _types) => {}
        }
    }
}

/// Letters of a scheme, in the order of the text.
pub struct SchemeLetters {
    pub items: Vec<SchemeLetter>,
}

impl Drop for SchemeLetters {
    fn drop(self) {
        let SchemeLetters { items: _items } = self;
    }
}

impl Model for SchemeLetters {
    ghost use Rattle.std.specs.Prelude.{List};
    ghost use Rattle.std.specs.Coded.{coded_list};
    ghost use Rattle.mz_core.specs.declared.scheme.SchemeLetter.{SchemeLetter};
    ghost use Rattle.mz_core.specs.contracts.scheme.SchemeLetter.{the_row};

    ghost Value = { List SchemeLetter };

    ghost coded = { coded_list the_row.coded };

    ghost view = { λ a. a.items.items };
}

impl SchemeLetters {
    /// No letters of a scheme.
    pub fn new(alloc: Global) -> SchemeLetters
        ensures { result ≡ [] }
    {
        SchemeLetters {
            items: Vec::new(alloc),
        }
    }

    /// Puts a letter at the end.
    pub fn push(&mut self, x: SchemeLetter) -> Result<(), AllocError>
        ensures ok { OnOk result (self.new ≡ self.old ++ x ∷ []) }
        ensures err { OnErr result (self.new ≡ self.old) }
    {
        self.items.push(x)?;
        Ok(())
    }
}

/// A scheme: its letters, premises and conclusion.
pub struct Scheme {
    pub letters: SchemeLetters,
    pub premises: Statements,
    pub conclusion: Statement,
}

impl Drop for Scheme {
    fn drop(self) {
        let Scheme {
            letters: _letters,
            premises: _premises,
            conclusion: _conclusion,
        } = self;
    }
}
