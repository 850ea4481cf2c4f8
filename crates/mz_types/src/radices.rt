//! Lists of radices.
ghost use Rattle.std.specs.Prelude.{◌≡◌, ◌++◌, ◌∷◌, [], reverse, MatchOption, OnOk, OnErr};

use mz_core::radix::Radix;
use std::alloc::{AllocError, Global};
use std::marker::Model;

/// Radixes, in order.
#[derive(Drop)]
pub struct Radixes {
    pub items: Vec<Radix>,
}

impl Model for Radixes {
    ghost use Rattle.std.specs.Prelude.{List};
    ghost use Rattle.std.specs.Coded.{coded_list};
    ghost use Rattle.mz_core.specs.declared.radix.Radix.{Radix};
    ghost use Rattle.mz_core.specs.contracts.radix.Radix.{the_row};

    ghost Value = { List Radix };

    ghost coded = { coded_list the_row.coded };

    ghost view = { λ a. a.items.items };
}

impl Radixes {
    /// No radices.
    pub fn new(alloc: Global) -> Radixes
        ensures { result ≡ [] }
    {
        Radixes {
            items: Vec::new(alloc),
        }
    }

    /// Puts one at the end.
    pub fn push(&mut self, x: Radix) -> Result<(), AllocError>
        ensures ok { OnOk result (self.new ≡ self.old ++ x ∷ []) }
        ensures err { OnErr result (self.new ≡ self.old) }
    {
        self.items.push(x)?;
        Ok(())
    }

    /// Takes the last one away.
    #[tactic(auto, using(crate::proofs::FindLemmas::told_popped))]
    pub fn pop(&mut self) -> Option<Radix>
        ensures { MatchOption result (self.old ≡ []) (λ r. self.old ≡ self.new ++ r ∷ []) }
    {
        let last = self.items.pop();
        last
    }

    /// The same in the other order.
    pub fn reversed(self) -> Radixes
        ensures { result ≡ reverse self }
    {
        let mut out = self;
        out.items.reverse();
        out
    }

    /// Puts these at the end.
    pub fn append(&mut self, others: Radixes) -> Result<(), AllocError>
        ensures { OnOk result (self.new ≡ self.old ++ others) }
    {
        let mut rest = others;
        self.items.append(&mut rest.items)?;
        Ok(())
    }
}
