//! The clauses of items and exports.
ghost use Rattle.std.specs.Prelude.{◌≡◌, ◌++◌, IfOk, OnOk, flat_map};
ghost use Rattle.mz_clauses.specs.Groups.{groups_clauses};
ghost use Rattle.mz_clauses.specs.Clauses.{typing_clauses, further_clauses, equality_clauses, item_clauses, clauses_of, letter_clauses};

use crate::clause_groups::ClauseGroups;
use crate::groups::push_clauses;
use crate::groups_of::{further_groups, item_equality_groups, letter_groups, typing_groups};
use mz_core::item::Item;
use mz_core::outcome::Export;
use mz_core::scheme::SchemeLetter;
use mz_ground::clauses::Clauses;
use std::alloc::{AllocError, Global};

/// The clauses of groups.
fn clauses_of_groups(alloc: Global, gs: &ClauseGroups) -> Result<Clauses, AllocError>
    ensures { IfOk result (λ cs. cs ≡ groups_clauses gs.now) }
{
    let mut out = Clauses::new(alloc);
    push_clauses(alloc, &mut out, gs)?;
    Ok(out)
}

/// The typing clauses of an item, by the table in `docs/PROOFS.md`.
pub fn typing_clauses(alloc: Global, item: &Item) -> Result<Clauses, AllocError>
    ensures { IfOk result (λ cs. cs ≡ typing_clauses item.now) }
{
    let gs = typing_groups(alloc, item)?;
    clauses_of_groups(alloc, &gs)
}

/// The further clauses of an item, by the same table.
pub fn further_clauses(alloc: Global, item: &Item) -> Result<Clauses, AllocError>
    ensures { IfOk result (λ cs. cs ≡ further_clauses item.now) }
{
    let gs = further_groups(alloc, item)?;
    clauses_of_groups(alloc, &gs)
}

/// The equality clauses of an item, by the same table.
pub fn equality_clauses(alloc: Global, item: &Item) -> Result<Clauses, AllocError>
    ensures { IfOk result (λ cs. cs ≡ equality_clauses item.now) }
{
    let gs = item_equality_groups(alloc, item)?;
    clauses_of_groups(alloc, &gs)
}

/// Puts the clauses of an item at the end: its typing clauses, further ones, and equality clauses.
#[tactic(auto, unfolding(crate::specs::Clauses::item_clauses))]
pub fn push_item(alloc: Global, out: &mut Clauses, item: &Item) -> Result<(), AllocError>
    ensures { OnOk result (out.new ≡ out.old ++ item_clauses item.now) }
{
    let typing = typing_groups(alloc, item)?;
    push_clauses(alloc, out, &typing)?;
    let further = further_groups(alloc, item)?;
    push_clauses(alloc, out, &further)?;
    let equalities = item_equality_groups(alloc, item)?;
    push_clauses(alloc, out, &equalities)
}

/// The clauses of an export: those of its items in their order, by the table in `docs/PROOFS.md`. More than
/// 4,294,967,295 variables are as no memory.
#[tactic(auto, unfolding(crate::specs::Clauses::clauses_of))]
pub fn clauses_of(alloc: Global, export: &Export) -> Result<Clauses, AllocError>
    ensures { IfOk result (λ cs. cs ≡ clauses_of export.now) }
{
    let mut out = Clauses::new(alloc);
    for item in &export.items.items {
        push_item(alloc, &mut out, item)?;
    }
    Ok(out)
}

/// The clauses of a scheme's letter: its type, under its places, for a functor letter.
#[tactic(auto, unfolding(crate::specs::Clauses::letter_clauses))]
pub fn letter_clauses(alloc: Global, l: &SchemeLetter) -> Result<Clauses, AllocError>
    ensures { IfOk result (λ cs. cs ≡ letter_clauses l.now) }
{
    let gs = letter_groups(alloc, l)?;
    clauses_of_groups(alloc, &gs)
}
