//! Sequents.
ghost use Rattle.std.specs.Prelude.{◌≡◌, ◌↔◌, IfOk, IsTrue};

use crate::formula::Formula;
use crate::formulas::Formulas;
use std::alloc::{AllocError, Global};

/// A conclusion from premises. A formula of a sequent is to have no free bound index; the type doesn't test it.
#[derive(Drop)]
pub struct Sequent {
    pub premises: Formulas,
    pub conclusion: Formula,
}

impl Sequent {
    /// Whether the sequents are equal.
    pub fn equals(&self, other: &Sequent) -> bool
        ensures { IsTrue result ↔ (self.now ≡ other.now) }
    {
        self.premises.equals(&other.premises) && self.conclusion.equals(&other.conclusion)
    }

    /// An equal sequent.
    pub fn copy(&self, alloc: Global) -> Result<Sequent, AllocError>
        ensures { IfOk result (λ s. s ≡ self.now) }
    {
        let premises = self.premises.copy(alloc)?;
        let conclusion = self.conclusion.copy(alloc)?;
        Ok(Sequent {
            premises,
            conclusion,
        })
    }
}
