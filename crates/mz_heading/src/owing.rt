//! Items of headings, with the conditions and properties behind them.
ghost use Rattle.std.specs.Prelude.{◌≡◌, IfOk, OnOk};
ghost use Rattle.mz_conditions.specs.Conditions.{asked, TakesConditions};
ghost use Rattle.mz_defined.specs.Owing.{conditions_in, further_in, TakesWritten, TakesOwing};
ghost use Rattle.mz_heading.specs.Ends.{missing_answer, EndsItem};
ghost use Rattle.mz_standing.specs.Standing.{extent_of, with_left};
ghost use Rattle.mz_taken.specs.Answers.{OnTaken, Brings};

use crate::headed::{copy_of, loci_count, put_heading, too_large};
use crate::limits::all_keep;
use mz_base::place::Place;
use mz_base::text::Text;
use mz_conditions::conditions::take_condition;
use mz_context::context::Context;
use mz_core::item::Item;
use mz_core::outcome::Left;
use mz_items::condition::Condition;
use mz_justified::walker::Walker;
use mz_obligations::obligation::Obligations;
use mz_owed::owed::{Owed, at_first, missing};
use mz_properties::properties::take_all_further;
use mz_standing::changes::extent_of;
use mz_standing::standing::Standing;
use mz_taken::item_fault::{ItemFault, ItemRefusal};
use mz_tree_item::definition::ConditionOrPropertyTree;
use mz_walk::prove_steps::ProveSteps;
use std::alloc::Global;

/// Takes the conditions before the first property, one after another, up to the first refusal; and what stands from there on. The context is
/// as before.
fn take_first<'a, P: ProveSteps>(
    walker: Walker<'_>,
    ctx: &mut Context,
    least: u32,
    count: u32,
    x: &Item,
    owed: &mut Owed,
    left: &mut Left,
    os: &mut Obligations,
    ws: &'a [ConditionOrPropertyTree],
) -> Result<&'a [ConditionOrPropertyTree], ItemFault>
    ensures takes { OnTaken result (Brings (TakesConditions walker.entry.env.now walker.entry.at ctx.old least count x.now (asked owed.old left.old) (conditions_in ws.now)) (asked owed.new left.new) os.old os.new) }
    ensures same { OnOk result (ctx.new ≡ ctx.old) }
    ensures further { IfOk result (λ vs. vs.now ≡ further_in ws.now) }
{
    let mut rest = ws;
    while let Some((w, others)) = rest.split_first() {
        match w {
            ConditionOrPropertyTree::Property(_) => return Ok(rest),
            ConditionOrPropertyTree::Condition(t) => {
                match take_condition::<P>(walker, ctx, least, count, x, owed, left, os, t) {
                    Ok(()) => rest = others,
                    Err(fault) => return Err(fault),
                }
            }
        }
    }
    Ok(rest)
}

/// So by what stands. Nothing but what is left changes.
#[tactic(auto, using(crate::proofs::OwingLemmas::written_rules))]
fn take_written<'a, P: ProveSteps>(
    alloc: Global,
    s: &mut Standing,
    os: &mut Obligations,
    least: u32,
    count: u32,
    x: &Item,
    owed: &mut Owed,
    ws: &'a [ConditionOrPropertyTree],
) -> Result<&'a [ConditionOrPropertyTree], ItemFault>
    ensures takes { OnTaken result (Brings (TakesConditions s.old.environment (extent_of s.old) s.old.context least count x.now (asked owed.old s.old.left) (conditions_in ws.now)) (asked owed.new s.new.left) os.old os.new) }
    ensures same { OnOk result (s.new ≡ with_left s.old s.new.left) }
    ensures further { IfOk result (λ vs. vs.now ≡ further_in ws.now) }
{
    let at = extent_of(s);
    let walker = Walker {
        alloc,
        env: &s.environment,
        at,
    };
    take_first::<P>(
        walker,
        &mut s.context,
        least,
        count,
        x,
        owed,
        &mut s.left,
        os,
        ws,
    )
}

/// The refusal of a condition that is missing, at the place.
fn end_conditions(behind: Place, c: Option<Condition>) -> Result<(), ItemFault>
    ensures { result ≡ missing_answer behind c }
{
    match c {
        None => Ok(()),
        Some(c) => Err(ItemFault::Refused(ItemRefusal::ConditionMissing {
            place: behind,
            condition: c.number(),
        })),
    }
}

/// Puts the item in force behind its conditions, and takes what stands from the first property on.
fn end_item<P: ProveSteps>(
    alloc: Global,
    s: &mut Standing,
    os: &mut Obligations,
    least: u32,
    count: u32,
    label: Text,
    x: Box<Item>,
    owed: &Owed,
    ws: &[ConditionOrPropertyTree],
    behind: Place,
) -> Result<(), ItemFault>
    ensures { OnTaken result (Brings (EndsItem least count s.old label x.value owed.now ws.now behind) s.new os.old os.new) }
{
    let copy = copy_of(alloc, &x)?;
    put_heading(alloc, s, x, label)?;
    match take_all_further::<P>(alloc, s, os, least, count, &copy, owed, ws) {
        Err(fault) => Err(fault),
        Ok(()) => end_conditions(behind, missing(owed)),
    }
}

/// Takes an item of a heading, with what is written behind the heading; the first token behind that stands at the place. Its obligations are
/// put behind the others.
///
/// # Errors
/// The first refusal of a condition or a property; `ConditionMissing` at the token behind them; or there was no memory.
pub fn take_item<P: ProveSteps>(
    alloc: Global,
    s: &mut Standing,
    os: &mut Obligations,
    least: u32,
    label: Text,
    x: Box<Item>,
    ws: &[ConditionOrPropertyTree],
    behind: Place,
) -> Result<(), ItemFault>
    ensures { OnTaken result (Brings (TakesWritten least s.old label x.value ws.now behind) s.new os.old os.new) }
{
    let count = loci_count(&s.context, least)?;
    let mut owed = at_first(alloc, &x)?;
    match take_written::<P>(alloc, s, os, least, count, &x, &mut owed, ws) {
        Err(fault) => Err(fault),
        Ok(further) => {
            end_item::<P>(alloc, s, os, least, count, label, x, &owed, further, behind)
        }
    }
}

/// Takes an item of a heading whose first token stands at the place `first`, with what is written behind the heading, unless what the item owes
/// and grants is beyond the limits; the first token behind that stands at the place `behind`. Its obligations are put behind the others.
///
/// # Errors
/// `TooLarge` at the first token where what the item owes and grants is beyond the limits; those of `take_item`.
pub fn take_owing<P: ProveSteps>(
    alloc: Global,
    s: &mut Standing,
    os: &mut Obligations,
    least: u32,
    first: Place,
    label: Text,
    x: Box<Item>,
    ws: &[ConditionOrPropertyTree],
    behind: Place,
) -> Result<(), ItemFault>
    ensures { OnTaken result (Brings (TakesOwing least s.old first label x.value ws.now behind) s.new os.old os.new) }
{
    let count = loci_count(&s.context, least)?;
    let keeps = all_keep(alloc, count, &x)?;
    if !keeps {
        return Err(too_large(first));
    }
    take_item::<P>(alloc, s, os, least, label, x, ws, behind)
}
