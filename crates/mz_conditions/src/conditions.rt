//! The correctness conditions behind a heading, taken.
ghost use Rattle.std.specs.Prelude.{◌≡◌, false, nat_eq, length, IfOk, OnOk};
ghost use Rattle.mz_loci.specs.Loci.{statement_at_loci};
ghost use Rattle.mz_justified.specs.Answers.{OnMade};
ghost use Rattle.mz_walk.specs.Answers as walk;
ghost use Rattle.mz_walk.specs.Walk.{Justifies};
ghost use Rattle.mz_taken.specs.Answers.{OnTaken, Brings};
ghost use Rattle.mz_conditions.specs.Answers.{of_walk};
ghost use Rattle.mz_owed.specs.Owed.{named, number_of, joint_thesis};
ghost use Rattle.mz_conditions.specs.Conditions.{asked, plain_sentence, TakesCondition, TakesConditions};

use mz_context::context::Context;
use mz_core::item::Item;
use mz_core::outcome::Left;
use mz_core::statement::Statement;
use mz_formulas::sentence::Sentence;
use mz_justified::proof_fault::ProofFault;
use mz_justified::walker::{Opening, Walker};
use mz_loci::loci::statement_at_loci;
use mz_names::variable::Variables;
use mz_obligations::obligation::Obligations;
use mz_owed::owed::{Conditions, Owed, covered, joint_thesis, mark, number_of};
use mz_taken::item_fault::{ItemFault, ItemRefusal, of_reasoning};
use mz_tree_item::definition::ConditionTree;
use mz_walk::prove_steps::ProveSteps;
use std::alloc::{AllocError, Global};

/// The answer of a walk as that of an item.
fn of_walk(answer: Result<(), ProofFault>) -> Result<(), ItemFault>
    ensures { result ≡ of_walk answer }
{
    match answer {
        Ok(()) => Ok(()),
        Err(fault) => Err(of_reasoning(fault)),
    }
}

fn plain_sentence(alloc: Global, s: Statement) -> Result<Sentence, AllocError>
    ensures { IfOk result (λ x. x ≡ plain_sentence s) }
{
    let closed = s.copy(alloc)?;
    Ok(Sentence {
        variables: Variables::new(alloc),
        inner: s,
        closed,
    })
}

/// What conditions state together where the item's loci are the constants from `least` on.
fn sentence_at_loci(
    alloc: Global,
    least: u32,
    count: u32,
    x: &Item,
    cs: &Conditions,
) -> Result<Sentence, AllocError>
    ensures { IfOk result (λ y. y ≡ plain_sentence (statement_at_loci least count (joint_thesis x.now cs.now))) }
{
    let thesis = joint_thesis(alloc, x, cs.items.as_slice())?;
    let s = statement_at_loci(alloc, &thesis, least, count)?;
    plain_sentence(alloc, s)
}

/// Takes the justification of a condition. The context is as before.
fn justify<P: ProveSteps>(
    walker: Walker<'_>,
    ctx: &mut Context,
    tree: &ConditionTree,
    x: &Sentence,
    left: &mut Left,
    os: &mut Obligations,
) -> Result<(), ProofFault>
    ensures justifies { OnMade result (walk.Brings (Justifies walker.entry.env.now walker.entry.at ctx.old tree.now.place false tree.now.semicolon tree.now.just x.now left.old) left.new os.old os.new) }
    ensures same { OnOk result (ctx.new ≡ ctx.old) }
{
    let opening = Opening {
        first: tree.place,
        linked: false,
    };
    P::justify(
        walker,
        ctx,
        opening,
        tree.semicolon,
        &tree.just,
        x,
        left,
        os,
    )
}

fn is_empty(cs: &Conditions) -> bool
    ensures { result ≡ nat_eq (length cs.now) 0 }
{
    cs.items.len() == 0
}

/// Takes a condition behind the heading of an item that has so many loci, which are the constants from `least` on in the context. The
/// context is as before.
///
/// # Errors
/// `ConditionStray` at its word where it covers nothing that is owed; the first refusal of its justification; or there was no memory.
#[tactic(auto, using(crate::proofs::ConditionLemmas::condition_rules))]
pub fn take_condition<P: ProveSteps>(
    walker: Walker<'_>,
    ctx: &mut Context,
    least: u32,
    count: u32,
    x: &Item,
    owed: &mut Owed,
    left: &mut Left,
    os: &mut Obligations,
    tree: &ConditionTree,
) -> Result<(), ItemFault>
    ensures takes { OnTaken result (Brings (TakesCondition walker.entry.env.now walker.entry.at ctx.old least count x.now (asked owed.old left.old) tree.now) (asked owed.new left.new) os.old os.new) }
    ensures same { OnOk result (ctx.new ≡ ctx.old) }
{
    let cs = covered(walker.alloc, owed, tree.word)?;
    if is_empty(&cs) {
        return Err(ItemFault::Refused(ItemRefusal::ConditionStray {
            place: tree.place,
            condition: number_of(tree.word),
        }));
    }
    let sentence = sentence_at_loci(walker.alloc, least, count, x, &cs)?;
    mark(walker.alloc, owed, tree.word)?;
    of_walk(justify::<P>(walker, ctx, tree, &sentence, left, os))
}

/// Takes conditions, one after another, up to the first refusal. The context is as before.
///
/// # Errors
/// Those of each condition.
pub fn take_conditions<P: ProveSteps>(
    walker: Walker<'_>,
    ctx: &mut Context,
    least: u32,
    count: u32,
    x: &Item,
    owed: &mut Owed,
    left: &mut Left,
    os: &mut Obligations,
    trees: &[ConditionTree],
) -> Result<(), ItemFault>
    ensures takes { OnTaken result (Brings (TakesConditions walker.entry.env.now walker.entry.at ctx.old least count x.now (asked owed.old left.old) trees.now) (asked owed.new left.new) os.old os.new) }
    ensures same { OnOk result (ctx.new ≡ ctx.old) }
{
    let mut rest = trees;
    while let Some((tree, others)) = rest.split_first() {
        match take_condition::<P>(walker, ctx, least, count, x, owed, left, os, tree) {
            Ok(()) => rest = others,
            Err(fault) => return Err(fault),
        }
    }
    Ok(())
}
