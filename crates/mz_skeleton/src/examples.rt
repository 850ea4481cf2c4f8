//! `take`: examples, each fitted before the next one is read.
ghost use Rattle.std.specs.Prelude.{◌≡◌, map};
ghost use Rattle.mz_core.specs.declared.outcome.Left.{Left};
ghost use Rattle.mz_cited.specs.Cited.{members, tree_of};
ghost use Rattle.mz_justified.specs.Answers.{OnMade};
ghost use Rattle.mz_walk.specs.Walked.{state, OneByOne};
ghost use Rattle.mz_walk.specs.Skeleton.{TakesOne};
ghost use Rattle.mz_walk.specs.Answers.{reached};

use mz_base::place::Place;
use mz_context::context::Context;
use mz_core::outcome::Left;
use mz_environment::environment::Environment;
use mz_justified::proof_fault::ProofFault;
use mz_parts::named::read_named;
use mz_performing::fault::resolved;
use mz_performing::perform::{perform_all, perform_alone};
use mz_performing::read_steps::take_and_set;
use mz_resolve::calls::term;
use mz_steps::block::Block;
use mz_steps::read_step::ReadStep;
use mz_tree::chain::Next;
use mz_tree::lists::Separated;
use mz_tree::word::Comma;
use mz_tree_proof::skeleton::TakenTree;
use std::alloc::Global;

/// An example: `take t`; `take x = t` is this and then `set x = t`.
#[tactic(auto, using(mz_performing::proofs::SkeletonLemmas::take_rules))]
fn take_one(
    alloc: Global,
    env: &Environment,
    ctx: &mut Context,
    block: &mut Block,
    first: Place,
    tree: &TakenTree,
    left: &mut Left,
) -> Result<(), ProofFault>
    ensures { OnMade result (λ o. TakesOne env.now first (state ctx.old block.old left.old) tree.now (reached o (state ctx.new block.new left.new))) }
{
    match tree {
        TakenTree::Plain(t) => match term(alloc, env, ctx, 0, t, left) {
            Ok(t) => perform_alone(alloc, env, ctx, block, first, &ReadStep::Take(t)),
            Err(f) => Err(resolved(f)),
        },
        TakenTree::Named(n) => match read_named(alloc, env, ctx, 0, n, left) {
            Ok(d) => {
                let steps = take_and_set(alloc, d)?;
                perform_all(alloc, env, ctx, block, first, &steps)
            }
            Err(f) => Err(resolved(f)),
        },
    }
}

/// Further examples, one by one.
#[tactic(auto, using(mz_performing::proofs::SkeletonLemmas::take_each_rules))]
fn take_each(
    alloc: Global,
    env: &Environment,
    ctx: &mut Context,
    block: &mut Block,
    first: Place,
    trees: &[Next<Comma, TakenTree>],
    left: &mut Left,
) -> Result<(), ProofFault>
    ensures { OnMade result (λ o. OneByOne (TakesOne env.now first) (state ctx.old block.old left.old) (map tree_of trees.now) (reached o (state ctx.new block.new left.new))) }
{
    let mut rest = trees;
    while let Some((next, others)) = rest.split_first() {
        match take_one(alloc, env, ctx, block, first, &next.tree, left) {
            Ok(()) => rest = others,
            Err(f) => return Err(f),
        }
    }
    Ok(())
}

/// All examples, one by one.
#[tactic(auto, using(crate::proofs::TakeLemmas::all_rules))]
pub fn take_all(
    alloc: Global,
    env: &Environment,
    ctx: &mut Context,
    block: &mut Block,
    first: Place,
    trees: &Separated<TakenTree>,
    left: &mut Left,
) -> Result<(), ProofFault>
    ensures { OnMade result (λ o. OneByOne (TakesOne env.now first) (state ctx.old block.old left.old) (members trees.now) (reached o (state ctx.new block.new left.new))) }
{
    match take_one(alloc, env, ctx, block, first, &trees.first, left) {
        Ok(()) => take_each(
            alloc,
            env,
            ctx,
            block,
            first,
            trees.more.items.as_slice(),
            left,
        ),
        Err(f) => Err(f),
    }
}
