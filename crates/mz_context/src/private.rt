//! Private functors and predicates.
ghost use Rattle.std.specs.Prelude.{◌≡◌, ◌++◌, ◌∷◌, [], OnOk, OnErr};

use mz_base::text::Text;
use mz_core::soft_types::SoftTypes;
use mz_core::statement::Statement;
use mz_logic::term::Term;
use std::alloc::{AllocError, Global};
use std::marker::Model;

/// A private functor: its name, the types of its places, and its body, in which the index i, counted past the
/// quantifiers crossed, stands for the argument i, from 0.
#[derive(Drop)]
pub struct PrivateFunctor {
    pub name: Text,
    pub places: SoftTypes,
    pub body: Term,
}

/// A private predicate: its name, the types of its places, and its body, as that of a private functor.
#[derive(Drop)]
pub struct PrivatePredicate {
    pub name: Text,
    pub places: SoftTypes,
    pub body: Statement,
}

/// Private functors, the latest last.
#[derive(Drop)]
pub struct PrivateFunctors {
    pub items: Vec<PrivateFunctor>,
}

impl Model for PrivateFunctors {
    ghost use Rattle.std.specs.Prelude.{List};
    ghost use Rattle.std.specs.Coded.{coded_list};
    ghost use Rattle.mz_context.specs.declared.private.PrivateFunctor.{PrivateFunctor};
    ghost use Rattle.mz_context.specs.contracts.private.PrivateFunctor.{the_row};

    ghost Value = { List PrivateFunctor };

    ghost coded = { coded_list the_row.coded };

    ghost view = { λ a. a.items.items };
}

impl PrivateFunctors {
    /// No functors.
    pub fn new(alloc: Global) -> PrivateFunctors
        ensures { result ≡ [] }
    {
        PrivateFunctors {
            items: Vec::new(alloc),
        }
    }

    /// Puts one at the end.
    pub fn push(&mut self, x: PrivateFunctor) -> Result<(), AllocError>
        ensures ok { OnOk result (self.new ≡ self.old ++ x ∷ []) }
        ensures err { OnErr result (self.new ≡ self.old) }
    {
        self.items.push(x)?;
        Ok(())
    }
}

/// Private predicates, the latest last.
#[derive(Drop)]
pub struct PrivatePredicates {
    pub items: Vec<PrivatePredicate>,
}

impl Model for PrivatePredicates {
    ghost use Rattle.std.specs.Prelude.{List};
    ghost use Rattle.std.specs.Coded.{coded_list};
    ghost use Rattle.mz_context.specs.declared.private.PrivatePredicate.{PrivatePredicate};
    ghost use Rattle.mz_context.specs.contracts.private.PrivatePredicate.{the_row};

    ghost Value = { List PrivatePredicate };

    ghost coded = { coded_list the_row.coded };

    ghost view = { λ a. a.items.items };
}

impl PrivatePredicates {
    /// No predicates.
    pub fn new(alloc: Global) -> PrivatePredicates
        ensures { result ≡ [] }
    {
        PrivatePredicates {
            items: Vec::new(alloc),
        }
    }

    /// Puts one at the end.
    pub fn push(&mut self, x: PrivatePredicate) -> Result<(), AllocError>
        ensures ok { OnOk result (self.new ≡ self.old ++ x ∷ []) }
        ensures err { OnErr result (self.new ≡ self.old) }
    {
        self.items.push(x)?;
        Ok(())
    }
}
