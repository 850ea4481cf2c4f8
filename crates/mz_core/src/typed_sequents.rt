//! Lists of sequents of statements.
ghost use Rattle.std.specs.Prelude.{◌≡◌, ◌++◌, ◌∷◌, [], IfOk, OnOk, OnErr, map};
ghost use Rattle.mz_core.specs.TypedSequent.{erased_sequent};

use crate::typed_sequent::{TypedSequent, erase_sequent};
use mz_logic::sequents::Sequents;
use std::alloc::{AllocError, Global};
use std::marker::Model;

/// Sequents of statements, in the order of the conditions that they state.
pub struct TypedSequents {
    pub items: Vec<TypedSequent>,
}

impl Drop for TypedSequents {
    fn drop(self) {
        let TypedSequents { items: _items } = self;
    }
}

impl Model for TypedSequents {
    ghost use Rattle.std.specs.Prelude.{List};
    ghost use Rattle.std.specs.Coded.{coded_list};
    ghost use Rattle.mz_core.specs.declared.typed_sequent.TypedSequent.{TypedSequent};
    ghost use Rattle.mz_core.specs.contracts.typed_sequent.TypedSequent.{the_row};

    ghost Value = { List TypedSequent };

    ghost coded = { coded_list the_row.coded };

    ghost view = { λ a. a.items.items };
}

impl TypedSequents {
    /// None.
    pub fn new(alloc: Global) -> TypedSequents
        ensures { result ≡ [] }
    {
        TypedSequents {
            items: Vec::new(alloc),
        }
    }

    /// Puts one at the end.
    pub fn push(&mut self, x: TypedSequent) -> Result<(), AllocError>
        ensures ok { OnOk result (self.new ≡ self.old ++ x ∷ []) }
        ensures err { OnErr result (self.new ≡ self.old) }
    {
        self.items.push(x)?;
        Ok(())
    }

    /// The sequents of the erasures.
    pub fn erased(&self, alloc: Global) -> Result<Sequents, AllocError>
        ensures { IfOk result (λ ss. ss ≡ map erased_sequent self.now) }
    {
        let mut out = Vec::new(alloc);
        for x in &self.items {
            out.push(erase_sequent(alloc, x)?)?;
        }
        Ok(Sequents { items: out })
    }
}
