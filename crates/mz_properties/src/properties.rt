//! The properties behind the heading of an item, taken.
ghost use Rattle.std.specs.Prelude.{◌≡◌, false, IfOk, OnOk};
ghost use Rattle.mz_conditions.specs.Conditions.{plain_sentence};
ghost use Rattle.mz_core.specs.declared.item.Item.TheVariants as item;
ghost use Rattle.mz_justified.specs.Answers.{OnMade};
ghost use Rattle.mz_justified.specs.declared.proof_fault.ProofRefusal.TheVariants.{Resolve, NotBuilt};
ghost use Rattle.mz_loci.specs.Loci.{statement_at_loci};
ghost use Rattle.mz_names.specs.declared.refusal.Refusal.TheVariants.{TooLarge};
ghost use Rattle.mz_owed.specs.Owed.{covered};
ghost use Rattle.mz_properties.specs.Properties.{stated, property_keeps, in_force, condition_refusal, TakesKnown, TakesProperty, TakesFurther, TakesAllFurther};
ghost use Rattle.mz_standing.specs.Standing.{extent_of, with_left};
ghost use Rattle.mz_taken.specs.Answers.{OnTaken, Brings};
ghost use Rattle.mz_taken.specs.declared.item_fault.ItemFault.TheVariants.{Refused};
ghost use Rattle.mz_taken.specs.declared.item_fault.ItemRefusal.TheVariants.{Proof, ConditionStray};
ghost use Rattle.mz_walk.specs.Answers as walk;
ghost use Rattle.mz_walk.specs.Walk.{Justifies};

use crate::forms::property_of;
use mz_base::place::Place;
use mz_base::text::Text;
use mz_context::context::Context;
use mz_core::item::Item;
use mz_core::outcome::Left;
use mz_core::property::Property;
use mz_core::statement::Statement;
use mz_formulas::sentence::Sentence;
use mz_items::condition::Condition;
use mz_items::property_rows::property_statement;
use mz_items::quantified::over;
use mz_justified::proof_fault::{ProofFault, ProofRefusal};
use mz_justified::walker::{Opening, Walker};
use mz_loci::loci::statement_at_loci;
use mz_names::refusal::Refusal;
use mz_names::variable::Variables;
use mz_obligations::obligation::Obligations;
use mz_owed::owed::{Owed, covered, number_of};
use mz_sizes::keeps::statement_keeps;
use mz_standing::changes::{extent_of, put_item};
use mz_standing::labels::end_heading;
use mz_standing::standing::Standing;
use mz_taken::item_fault::{ItemFault, ItemRefusal, of_reasoning};
use mz_tree_item::definition::{ConditionOrPropertyTree, ConditionTree, PropertyTree};
use mz_walk::prove_steps::ProveSteps;
use std::alloc::{AllocError, Global};

fn stray(place: Place, condition: u64) -> ItemFault
    ensures { result ≡ Refused (ConditionStray place condition) }
{
    ItemFault::Refused(ItemRefusal::ConditionStray { place, condition })
}

fn too_large(place: Place) -> ItemFault
    ensures { result ≡ Refused (Proof (Resolve (TooLarge place))) }
{
    ItemFault::Refused(ItemRefusal::Proof(ProofRefusal::Resolve(Refusal::TooLarge(place))))
}

fn not_built(place: Place) -> ItemFault
    ensures { result ≡ Refused (Proof (NotBuilt place)) }
{
    ItemFault::Refused(ItemRefusal::Proof(ProofRefusal::NotBuilt(place)))
}

fn stated(alloc: Global, p: &Property) -> Result<Statement, AllocError>
    ensures { IfOk result (λ s. s ≡ stated p.now) }
{
    property_statement(alloc, &p.loci, &p.form)
}

fn property_keeps(alloc: Global, p: &Property) -> Result<bool, AllocError>
    ensures { IfOk result (λ b. b ≡ property_keeps p.now) }
{
    let s = stated(alloc, p)?;
    let s = over(alloc, &p.loci, s)?;
    Ok(statement_keeps(&s))
}

fn plain_sentence(alloc: Global, s: Statement) -> Result<Sentence, AllocError>
    ensures { IfOk result (λ x. x ≡ plain_sentence s) }
{
    let closed = s.copy(alloc)?;
    Ok(Sentence {
        variables: Variables::new(alloc),
        inner: s,
        closed,
    })
}

/// What the property states where its loci are the constants from `least` on.
fn sentence_at_loci(
    alloc: Global,
    least: u32,
    count: u32,
    p: &Property,
) -> Result<Sentence, AllocError>
    ensures { IfOk result (λ y. y ≡ plain_sentence (statement_at_loci least count (stated p.now))) }
{
    let thesis = stated(alloc, p)?;
    let s = statement_at_loci(alloc, &thesis, least, count)?;
    plain_sentence(alloc, s)
}

/// Takes the justification of a property. The context is as before.
fn justify<P: ProveSteps>(
    walker: Walker<'_>,
    ctx: &mut Context,
    t: &PropertyTree,
    y: &Sentence,
    left: &mut Left,
    os: &mut Obligations,
) -> Result<(), ProofFault>
    ensures justifies { OnMade result (walk.Brings (Justifies walker.entry.env.now walker.entry.at ctx.old t.now.place false t.now.semicolon t.now.just y.now left.old) left.new os.old os.new) }
    ensures same { OnOk result (ctx.new ≡ ctx.old) }
{
    let opening = Opening {
        first: t.place,
        linked: false,
    };
    P::justify(walker, ctx, opening, t.semicolon, &t.just, y, left, os)
}

/// So by what stands. Nothing but what is left changes.
#[tactic(auto, using(crate::proofs::PropertyLemmas::judge_rules))]
fn judge<P: ProveSteps>(
    alloc: Global,
    s: &mut Standing,
    os: &mut Obligations,
    t: &PropertyTree,
    y: &Sentence,
) -> Result<(), ProofFault>
    ensures justifies { OnMade result (walk.Brings (Justifies s.old.environment (extent_of s.old) s.old.context t.now.place false t.now.semicolon t.now.just y.now s.old.left) s.new.left os.old os.new) }
    ensures same { OnOk result (s.new ≡ with_left s.old s.new.left) }
{
    let at = extent_of(s);
    let walker = Walker {
        alloc,
        env: &s.environment,
        at,
    };
    justify::<P>(walker, &mut s.context, t, y, &mut s.left, os)
}

/// Puts an item of which nothing can be cited in force.
fn put(alloc: Global, s: &mut Standing, x: Box<Item>) -> Result<(), AllocError>
    ensures { OnOk result (s.new ≡ in_force s.old x.value s.old.left) }
{
    end_heading(alloc, &mut s.context, &x, Text::new(alloc))?;
    put_item(alloc, s, Box::into_inner(x))
}

fn put_property(alloc: Global, s: &mut Standing, p: Box<Property>) -> Result<(), AllocError>
    ensures { OnOk result (s.new ≡ in_force s.old (item.Property p.value) s.old.left) }
{
    let x = Box::new(alloc, Item::Property(Box::into_inner(p)))?;
    put(alloc, s, x)
}

/// Takes a property where its word stands. Its obligations are put behind the others.
fn take_known<P: ProveSteps>(
    alloc: Global,
    s: &mut Standing,
    os: &mut Obligations,
    least: u32,
    count: u32,
    p: Box<Property>,
    t: &PropertyTree,
) -> Result<(), ItemFault>
    ensures { OnTaken result (Brings (TakesKnown least count p.value s.old t.now) s.new os.old os.new) }
{
    let keeps = property_keeps(alloc, &p)?;
    if !keeps {
        return Err(too_large(t.place));
    }
    let y = sentence_at_loci(alloc, least, count, &p)?;
    match judge::<P>(alloc, s, os, t, &y) {
        Err(fault) => Err(of_reasoning(fault)),
        Ok(()) => {
            put_property(alloc, s, p)?;
            Ok(())
        }
    }
}

fn boxed(alloc: Global, p: Property) -> Result<Box<Property>, AllocError>
    ensures { IfOk result (λ b. b.value ≡ p) }
{
    Ok(Box::new(alloc, p)?)
}

/// Takes a property behind the heading of an item, which is in force, in a block with so many loci, the constants from `least` on. Its
/// obligations are put behind the others.
///
/// # Errors
/// `ConditionStray` with 7 at its word where it is no property of the item; `TooLarge` at its word where what it states is beyond the limits;
/// the first refusal of its justification; or there was no memory.
pub fn take_property<P: ProveSteps>(
    alloc: Global,
    s: &mut Standing,
    os: &mut Obligations,
    least: u32,
    count: u32,
    x: &Item,
    t: &PropertyTree,
) -> Result<(), ItemFault>
    ensures { OnTaken result (Brings (TakesProperty least count x.now s.old t.now) s.new os.old os.new) }
{
    match property_of(alloc, t.word, x)? {
        None => Err(stray(t.place, 7)),
        Some(p) => {
            let known = boxed(alloc, p)?;
            take_known::<P>(alloc, s, os, least, count, known, t)
        }
    }
}

/// The refusal of a condition behind a property, where it covers these.
fn condition_refusal(cs: &[Condition], t: &ConditionTree) -> ItemFault
    ensures { result ≡ Refused (condition_refusal cs.now t.now) }
{
    match cs {
        [] => stray(t.place, number_of(t.word)),
        [_, ..] => not_built(t.place),
    }
}

fn refuse_condition(alloc: Global, owed: &Owed, t: &ConditionTree) -> Result<ItemFault, AllocError>
    ensures { IfOk result (λ k. k ≡ Refused (condition_refusal (covered owed.now t.now.word) t.now)) }
{
    let cs = covered(alloc, owed, t.word)?;
    Ok(condition_refusal(cs.items.as_slice(), t))
}

fn take_further<P: ProveSteps>(
    alloc: Global,
    s: &mut Standing,
    os: &mut Obligations,
    least: u32,
    count: u32,
    x: &Item,
    owed: &Owed,
    w: &ConditionOrPropertyTree,
) -> Result<(), ItemFault>
    ensures { OnTaken result (Brings (TakesFurther least count x.now owed.now s.old w.now) s.new os.old os.new) }
{
    match w {
        ConditionOrPropertyTree::Property(t) => {
            take_property::<P>(alloc, s, os, least, count, x, t)
        }
        ConditionOrPropertyTree::Condition(t) => {
            let refusal = refuse_condition(alloc, owed, t)?;
            Err(refusal)
        }
    }
}

/// Takes what stands behind the heading of an item from the first property on, one after another. Their obligations are put behind the others.
///
/// # Errors
/// Those of each property; at a condition `ConditionStray` where it covers nothing, and else `NotBuilt`.
pub fn take_all_further<P: ProveSteps>(
    alloc: Global,
    s: &mut Standing,
    os: &mut Obligations,
    least: u32,
    count: u32,
    x: &Item,
    owed: &Owed,
    ws: &[ConditionOrPropertyTree],
) -> Result<(), ItemFault>
    ensures { OnTaken result (Brings (TakesAllFurther least count x.now owed.now s.old ws.now) s.new os.old os.new) }
{
    let mut rest = ws;
    while let Some((w, others)) = rest.split_first() {
        match take_further::<P>(alloc, s, os, least, count, x, owed, w) {
            Ok(()) => rest = others,
            Err(fault) => return Err(fault),
        }
    }
    Ok(())
}
