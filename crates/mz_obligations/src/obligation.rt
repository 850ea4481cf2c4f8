//! Obligations: what has to be decided for a justification.
ghost use Rattle.std.specs.Prelude.{◌≡◌, ◌++◌, ◌∷◌, [], OnOk, OnErr};

use mz_base::place::Place;
use mz_ground::clauses::Clauses;
use mz_nf::problem::Problem;
use std::alloc::{AllocError, Global};
use std::marker::Model;

/// How much stood above a place of an article: how many of the article's clauses for `by`, in the order of its items,
/// how many unfoldings, and how many theorems and schemes that can be cited. These lists only grow, so the first ones are
/// those that may be used there.
#[derive(Clone, Copy, Debug, PartialEq, Eq)]
pub struct Extent {
    pub clauses: usize,
    pub unfoldings: usize,
    pub theorems: usize,
    pub schemes: usize,
}

/// What following a scheme found at a `from`: it fits; it doesn't fit; it has so many premises, and other than that many statements are
/// cited; or its premise of the number, from 1, isn't what is cited for it.
#[derive(Clone, Copy, Debug, PartialEq, Eq)]
pub enum SchemeVerdict {
    Fits,
    NoFit,
    PremiseCount(u64),
    PremiseNoFit(u64),
}

/// What is to be decided: a problem, by `by`; or a `from`, whose verdict was found at its place.
#[derive(Drop)]
pub enum Duty {
    By(Problem),
    From(SchemeVerdict),
}

/// What has to be decided for a justification, by what stood above its place and the clauses of the scheme letters that
/// were in force there. It stands alone, and may be decided later and on any thread.
#[derive(Drop)]
pub struct Obligation {
    pub place: Place,
    pub extent: Extent,
    pub letters: Clauses,
    pub duty: Duty,
}

/// Obligations, in the order of the text.
#[derive(Drop)]
pub struct Obligations {
    pub items: Vec<Obligation>,
}

impl Model for Obligations {
    ghost use Rattle.std.specs.Prelude.{List};
    ghost use Rattle.std.specs.Coded.{coded_list};
    ghost use Rattle.mz_obligations.specs.declared.obligation.Obligation.{Obligation};
    ghost use Rattle.mz_obligations.specs.contracts.obligation.Obligation.{the_row};

    ghost Value = { List Obligation };

    ghost coded = { coded_list the_row.coded };

    ghost view = { λ a. a.items.items };
}

impl Obligations {
    /// No obligations.
    pub fn new(alloc: Global) -> Obligations
        ensures { result ≡ [] }
    {
        Obligations {
            items: Vec::new(alloc),
        }
    }

    /// Puts one at the end.
    pub fn push(&mut self, x: Obligation) -> Result<(), AllocError>
        ensures ok { OnOk result (self.new ≡ self.old ++ x ∷ []) }
        ensures err { OnErr result (self.new ≡ self.old) }
    {
        self.items.push(x)?;
        Ok(())
    }

    /// Puts the others behind these.
    pub fn append(&mut self, more: Obligations) -> Result<(), AllocError>
        ensures { OnOk result (self.new ≡ self.old ++ more) }
    {
        let mut rest = more;
        self.items.append(&mut rest.items)?;
        Ok(())
    }
}
