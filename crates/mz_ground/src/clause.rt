//! Clauses.
ghost use Rattle.std.specs.Prelude.{◌≡◌, false, IsTrue, IfOk, MatchOption};
ghost use Rattle.mz_ground.specs.Variables.{has_all_below};

use crate::trigger::Trigger;
use mz_logic::literal::Literal;
use mz_logic::literals::Literals;
use std::alloc::{AllocError, Global};

/// A rule by which the conclusion holds wherever the premises do, for all terms in place of its variables.
/// The variables are the indices below `variables`; the trigger has each of them.
pub struct Clause {
    pub variables: u32,
    pub trigger: Trigger,
    pub premises: Literals,
    pub conclusion: Literal,
    pub ghost triggered: { IsTrue (has_all_below variables trigger) },
}

impl Drop for Clause {
    fn drop(self) {
        let Clause {
            variables: _variables,
            trigger: _trigger,
            premises: _premises,
            conclusion: _conclusion,
        } = self;
    }
}

impl Clause {
    /// The clause with these parts, if the trigger has each variable.
    pub fn new(
        variables: u32,
        trigger: Trigger,
        premises: Literals,
        conclusion: Literal,
    ) -> Option<Clause>
        ensures { MatchOption result (has_all_below variables trigger ≡ false) (λ c. (c.variables ≡ variables) × (c.trigger ≡ trigger) × (c.premises ≡ premises) × (c.conclusion ≡ conclusion)) }
    {
        if trigger.has_all_below(variables) {
            Some(Clause {
                variables,
                trigger,
                premises,
                conclusion,
            })
        } else {
            None
        }
    }

    /// An equal clause.
    pub fn copy(&self, alloc: Global) -> Result<Clause, AllocError>
        ensures { IfOk result (λ c. c ≡ self.now) }
    {
        let trigger = self.trigger.copy(alloc)?;
        let premises = self.premises.copy(alloc)?;
        let conclusion = self.conclusion.copy(alloc)?;
        Ok(Clause {
            variables: self.variables,
            trigger,
            premises,
            conclusion,
        })
    }
}
