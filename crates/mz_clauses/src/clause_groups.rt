//! Lists of groups of clauses.
ghost use Rattle.std.specs.Prelude.{◌≡◌, ◌++◌, ◌∷◌, [], OnOk, OnErr};

use mz_ground::trigger::Trigger;
use mz_logic::literals::Literals;
use std::alloc::{AllocError, Global};
use std::marker::Model;

/// Clauses with one trigger and the same premises, one for each conclusion. The variables are the indices below
/// `variables`: the loci and then the others in the order of their declaration, the first with the greatest
/// index. Where the trigger lacks a variable there are none.
#[derive(Drop)]
pub struct ClauseGroup {
    pub variables: u32,
    pub trigger: Trigger,
    pub premises: Literals,
    pub conclusions: Literals,
}

/// Groups of clauses.
#[derive(Drop)]
pub struct ClauseGroups {
    pub items: Vec<ClauseGroup>,
}

impl Model for ClauseGroups {
    ghost use Rattle.std.specs.Prelude.{List};
    ghost use Rattle.std.specs.Coded.{coded_list};
    ghost use Rattle.mz_clauses.specs.declared.clause_groups.ClauseGroup.{ClauseGroup};
    ghost use Rattle.mz_clauses.specs.contracts.clause_groups.ClauseGroup.{the_row};

    ghost Value = { List ClauseGroup };

    ghost coded = { coded_list the_row.coded };

    ghost view = { λ a. a.items.items };
}

impl ClauseGroups {
    /// No groups.
    pub fn new(alloc: Global) -> ClauseGroups
        ensures { result ≡ [] }
    {
        ClauseGroups {
            items: Vec::new(alloc),
        }
    }

    /// Puts a group at the end.
    pub fn push(&mut self, x: ClauseGroup) -> Result<(), AllocError>
        ensures ok { OnOk result (self.new ≡ self.old ++ x ∷ []) }
        ensures err { OnErr result (self.new ≡ self.old) }
    {
        self.items.push(x)?;
        Ok(())
    }
}
