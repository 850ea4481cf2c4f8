//! Disjuncts.
ghost use Rattle.std.specs.Prelude.{◌≡◌, IfOk};

use crate::formulas::Formulas;
use crate::literals::Literals;
use std::alloc::{AllocError, Global};

/// A disjunct of a problem: literals and universal formulas, all of which are to hold together.
#[derive(Drop)]
pub struct Disjunct {
    pub literals: Literals,
    pub universals: Formulas,
}

impl Disjunct {
    /// An equal disjunct.
    pub fn copy(&self, alloc: Global) -> Result<Disjunct, AllocError>
        ensures { IfOk result (λ d. d ≡ self.now) }
    {
        let literals = self.literals.copy(alloc)?;
        let universals = self.universals.copy(alloc)?;
        Ok(Disjunct {
            literals,
            universals,
        })
    }
}
