//! Sequents of statements.
ghost use Rattle.std.specs.Prelude.{◌≡◌, IfOk, map};
ghost use Rattle.mz_core.specs.Erasure.{erase};
ghost use Rattle.mz_core.specs.TypedSequent.{erased_sequent};

use crate::erasure::erase;
use crate::statement::Statement;
use crate::statements::Statements;
use mz_logic::formulas::Formulas;
use mz_logic::sequent::Sequent;
use std::alloc::{AllocError, Global};

/// The conclusion from the premises.
pub struct TypedSequent {
    pub premises: Statements,
    pub conclusion: Statement,
}

impl Drop for TypedSequent {
    fn drop(self) {
        let TypedSequent {
            premises: _premises,
            conclusion: _conclusion,
        } = self;
    }
}

/// The erasures of statements.
pub fn erase_all(alloc: Global, ss: &Statements) -> Result<Formulas, AllocError>
    ensures { IfOk result (λ fs. fs ≡ map erase ss.now) }
{
    let mut out = Vec::new(alloc);
    for s in &ss.items {
        out.push(erase(alloc, s)?)?;
    }
    Ok(Formulas { items: out })
}

/// The sequent of the erasures.
pub fn erase_sequent(alloc: Global, s: &TypedSequent) -> Result<Sequent, AllocError>
    ensures { IfOk result (λ r. r ≡ erased_sequent s.now) }
{
    let premises = erase_all(alloc, &s.premises)?;
    let conclusion = erase(alloc, &s.conclusion)?;
    Ok(Sequent {
        premises,
        conclusion,
    })
}
