//! Notations.
ghost use Rattle.std.specs.Prelude.{◌≡◌, IfOk};

use crate::pattern::Pattern;
use crate::soft_type::SoftType;
use mz_logic::literal::Literal;
use mz_logic::term::Term;
use std::alloc::{AllocError, Global};

/// What a pattern reads to, under its loci: for a mode the type, for a predicate or an attribute the
/// literal. A definition makes an attribute's literal with the subject as its last argument; a
/// synonym may have any literal.
#[derive(Drop)]
pub enum Meaning {
    OfTerm(Term),
    OfLiteral(Literal),
    OfType(SoftType),
}

/// A pattern and what it reads to.
pub struct Notation {
    pub pattern: Pattern,
    pub meaning: Meaning,
}

impl Drop for Notation {
    fn drop(self) {
        let Notation {
            pattern: _pattern,
            meaning: _meaning,
        } = self;
    }
}

impl Meaning {
    /// An equal meaning.
    pub fn copy(&self, alloc: Global) -> Result<Meaning, AllocError>
        ensures { IfOk result (λ m. m ≡ self.now) }
    {
        match self {
            Meaning::OfTerm(t) => Ok(Meaning::OfTerm(t.copy(alloc)?)),
            Meaning::OfLiteral(l) => Ok(Meaning::OfLiteral(l.copy(alloc)?)),
            Meaning::OfType(ty) => Ok(Meaning::OfType(ty.copy(alloc)?)),
        }
    }
}

impl Notation {
    /// An equal notation.
    pub fn copy(&self, alloc: Global) -> Result<Notation, AllocError>
        ensures { IfOk result (λ n. n ≡ self.now) }
    {
        let pattern = self.pattern.copy(alloc)?;
        let meaning = self.meaning.copy(alloc)?;
        Ok(Notation { pattern, meaning })
    }
}
