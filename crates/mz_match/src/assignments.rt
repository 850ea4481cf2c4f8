//! Lists of assignments.
ghost use Rattle.std.specs.Prelude.{◌≡◌, ◌↔◌, ◌++◌, ◌∷◌, [], IfOk, OnOk, IsTrue};

use crate::assignment::Assignment;
use std::alloc::{AllocError, Global};
use std::marker::Model;

/// A list of assignments.
#[derive(Drop)]
pub struct Assignments {
    pub items: Vec<Assignment>,
}

impl Model for Assignments {
    ghost use Rattle.std.specs.Prelude.{List, Option, ℕ};
    ghost use Rattle.std.specs.Coded.{coded_list, coded_option, coded_ℕ};

    ghost Value = { List (List (Option ℕ)) };

    ghost coded = { coded_list (coded_list (coded_option coded_ℕ)) };

    ghost view = { λ a. a.items.items };
}

impl Assignments {
    /// No assignment.
    pub fn new(alloc: Global) -> Assignments
        ensures { result ≡ [] }
    {
        Assignments {
            items: Vec::new(alloc),
        }
    }

    /// One assignment.
    pub fn single(alloc: Global, e: Assignment) -> Result<Assignments, AllocError>
        ensures { IfOk result (λ es. es ≡ e ∷ []) }
    {
        let mut out = Assignments::new(alloc);
        out.push(e)?;
        Ok(out)
    }

    /// Whether there is none.
    pub fn is_empty(&self) -> bool
        ensures { IsTrue result ↔ (self.now ≡ []) }
    {
        self.items.len() == 0
    }

    /// Puts an assignment at the end.
    pub fn push(&mut self, e: Assignment) -> Result<(), AllocError>
        ensures { OnOk result (self.new ≡ self.old ++ e ∷ []) }
    {
        self.items.push(e)?;
        Ok(())
    }

    /// Puts others at the end.
    pub fn append(&mut self, others: Assignments) -> Result<(), AllocError>
        ensures { OnOk result (self.new ≡ self.old ++ others) }
    {
        for e in others.items {
            self.items.push(e)?;
        }
        Ok(())
    }

    /// An equal list.
    pub fn copy(&self, alloc: Global) -> Result<Assignments, AllocError>
        ensures { IfOk result (λ es. es ≡ self.now) }
    {
        let mut out = Assignments::new(alloc);
        for e in &self.items {
            out.push(e.copy(alloc)?)?;
        }
        Ok(out)
    }
}
