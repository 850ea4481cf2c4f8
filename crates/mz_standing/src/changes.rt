//! How items change where an article stands.
ghost use Rattle.std.specs.Prelude.{◌≡◌, ◌++◌, ◌∷◌, [], IfOk, OnOk};
ghost use Rattle.mz_core.specs.declared.item.Item.TheVariants as item;
ghost use Rattle.mz_environment.specs.Cited.{numbered};
ghost use Rattle.mz_environment.specs.Environment.{joined, of_item};
ghost use Rattle.mz_standing.specs.Standing.{clauses_of, extent_of, with_item, with_context, behind_item, behind_theorem};

use crate::standing::Standing;
use mz_base::text::Text;
use mz_clauses::clauses_of::{equality_clauses, further_clauses, typing_clauses};
use mz_context::context::Context;
use mz_core::item::Item;
use mz_core::statement::Statement;
use mz_environment::join::push_clauses;
use mz_ground::clauses::Clauses;
use mz_obligations::obligation::Extent;
use std::alloc::{AllocError, Global};

/// How much stands above.
pub fn extent_of(s: &Standing) -> Extent
    ensures { result ≡ extent_of s.now }
{
    Extent {
        clauses: s.clauses.len(),
        unfoldings: s.environment.expansions.as_slice().len(),
        theorems: s.environment.theorems.as_slice().len(),
        schemes: s.environment.schemes.as_slice().len(),
    }
}

/// Puts the clauses that `by` uses of an item behind the others.
#[tactic(auto, using(crate::proofs::ChangeLemmas::three_groups))]
fn put_clauses(alloc: Global, item: &Item, out: &mut Clauses) -> Result<(), AllocError>
    ensures { OnOk result (out.new ≡ out.old ++ clauses_of item.now) }
{
    push_clauses(alloc, out, &typing_clauses(alloc, item)?)?;
    push_clauses(alloc, out, &further_clauses(alloc, item)?)?;
    push_clauses(alloc, out, &equality_clauses(alloc, item)?)
}

/// Puts what an item gives behind what is there.
fn put_gifts(alloc: Global, s: &mut Standing, item: &Item) -> Result<(), AllocError>
    ensures { OnOk result (s.new ≡ record s.old { environment = joined s.old.environment (of_item s.old.numbering item.now); clauses = s.old.clauses ++ clauses_of item.now; numbering = numbered s.old.numbering item.now }) }
{
    put_clauses(alloc, item, &mut s.clauses)?;
    s.environment.add(alloc, &mut s.numbering, item)
}

/// Puts an item behind the others: what it gives may be used from here on.
pub fn put_item(alloc: Global, s: &mut Standing, item: Item) -> Result<(), AllocError>
    ensures { OnOk result (s.new ≡ with_item s.old item) }
{
    put_gifts(alloc, s, &item)?;
    s.items.push(item)
}

/// Ends the statement just before.
pub fn end_statement(ctx: &mut Context)
    ensures { ctx.new ≡ behind_item ctx.old }
{
    ctx.previous = None;
}

/// Puts a theorem under its label, where it has one, and ends the statement just before.
fn label_theorem(
    alloc: Global,
    ctx: &mut Context,
    label: Text,
    s: &Statement,
) -> Result<(), AllocError>
    ensures { OnOk result (ctx.new ≡ behind_theorem ctx.old label s.now) }
{
    ctx.labelled.push_if_any(alloc, label, s)?;
    ctx.previous = None;
    Ok(())
}

fn theorem_item(alloc: Global, s: &Statement) -> Result<Item, AllocError>
    ensures { IfOk result (λ x. x ≡ item.Theorem s.now) }
{
    let s = s.copy(alloc)?;
    Ok(Item::Theorem(s))
}

/// Puts a theorem behind the other items: it can be cited by its number and its label from here on.
pub fn put_theorem(
    alloc: Global,
    s: &mut Standing,
    label: Text,
    statement: &Statement,
) -> Result<(), AllocError>
    ensures { OnOk result (s.new ≡ with_item (with_context s.old (behind_theorem s.old.context label statement.now)) (item.Theorem statement.now)) }
{
    label_theorem(alloc, &mut s.context, label, statement)?;
    put_item(alloc, s, theorem_item(alloc, statement)?)
}
