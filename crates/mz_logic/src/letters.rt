//! Letters of schemes, and what stands for them.
ghost use Rattle.std.specs.Prelude.{◌≡◌, ◌++◌, ◌∷◌, [], find, IfOk, OnOk, OnErr};
ghost use Rattle.std.specs.Option.{option_copied};
ghost use Rattle.mz_logic.specs.Letters.{is_of, term_for, formula_for};

use crate::formula::Formula;
use crate::sym::Sym;
use crate::term::Term;
use std::alloc::{AllocError, Global};
use std::marker::Model;

/// What stands for a letter, in which `Bound(i)` is the letter's argument i, from 0.
#[derive(Drop)]
pub enum Body {
    OfTerm(Term),
    OfFormula(Formula),
}

/// A letter and its body.
pub struct Letter {
    pub letter: Sym,
    pub body: Body,
}

impl Drop for Letter {
    fn drop(self) {
        let Letter {
            letter: _letter,
            body: _body,
        } = self;
    }
}

/// Letters and their bodies. The first entry of a letter counts, and an entry of a symbol that is no
/// letter stands for nothing.
pub struct Letters {
    pub items: Vec<Letter>,
}

impl Drop for Letters {
    fn drop(self) {
        let Letters { items: _items } = self;
    }
}

impl Model for Letters {
    ghost use Rattle.std.specs.Prelude.{List};
    ghost use Rattle.std.specs.Coded.{coded_list};
    ghost use Rattle.mz_logic.specs.declared.letters.Letter.{Letter};
    ghost use Rattle.mz_logic.specs.contracts.letters.Letter.{the_row};

    ghost Value = { List Letter };

    ghost coded = { coded_list the_row.coded };

    ghost view = { λ a. a.items.items };
}

impl Body {
    /// An equal body.
    pub fn copy(&self, alloc: Global) -> Result<Body, AllocError>
        ensures { IfOk result (λ b. b ≡ self.now) }
    {
        match self {
            Body::OfTerm(t) => {
                let t = t.copy(alloc)?;
                Ok(Body::OfTerm(t))
            }
            Body::OfFormula(f) => {
                let f = f.copy(alloc)?;
                Ok(Body::OfFormula(f))
            }
        }
    }
}

impl Letter {
    /// An equal entry.
    pub fn copy(&self, alloc: Global) -> Result<Letter, AllocError>
        ensures { IfOk result (λ l. l ≡ self.now) }
    {
        let body = self.body.copy(alloc)?;
        Ok(Letter {
            letter: self.letter,
            body,
        })
    }
}

impl Letters {
    /// No letters.
    pub fn new(alloc: Global) -> Letters
        ensures { result ≡ [] }
    {
        Letters {
            items: Vec::new(alloc),
        }
    }

    /// Puts an entry at the end.
    pub fn push(&mut self, l: Letter) -> Result<(), AllocError>
        ensures ok { OnOk result (self.new ≡ self.old ++ l ∷ []) }
        ensures err { OnErr result (self.new ≡ self.old) }
    {
        self.items.push(l)?;
        Ok(())
    }

    /// An equal list.
    pub fn copy(&self, alloc: Global) -> Result<Letters, AllocError>
        ensures { IfOk result (λ ls. ls ≡ self.now) }
    {
        let mut out = Vec::new(alloc);
        for l in &self.items {
            out.push(l.copy(alloc)?)?;
        }
        Ok(Letters { items: out })
    }

    /// The term that stands for a functor letter.
    pub fn term(&self, s: Sym) -> Option<&Term>
        ensures { option_copied result ≡ term_for s self.now }
    {
        if !s.is_functor_letter() {
            return None;
        }
        match self.find(s) {
            Some(l) => match &l.body {
                Body::OfTerm(t) => Some(t),
                Body::OfFormula(_) => None,
            },
            None => None,
        }
    }

    /// The formula that stands for a predicate letter.
    pub fn formula(&self, s: Sym) -> Option<&Formula>
        ensures { option_copied result ≡ formula_for s self.now }
    {
        if !s.is_predicate_letter() {
            return None;
        }
        match self.find(s) {
            Some(l) => match &l.body {
                Body::OfTerm(_) => None,
                Body::OfFormula(f) => Some(f),
            },
            None => None,
        }
    }

    fn find(&self, s: Sym) -> Option<&Letter>
        ensures { option_copied result ≡ find (is_of s) self.now }
    {
        self.items.iter().find(|l| l.letter.is(s))
    }
}
