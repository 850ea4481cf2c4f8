//! `let`: variables, each in force before the next one is read.
ghost use Rattle.std.specs.Prelude.{◌≡◌, ◌∷◌, [], map};
ghost use Rattle.mz_core.specs.declared.outcome.Left.{Left};
ghost use Rattle.mz_tree.specs.Views.{declared_of};
ghost use Rattle.mz_formulas.specs.Declarations.{declared_tree};
ghost use Rattle.mz_parts.specs.Declarations.{declared_in};
ghost use Rattle.mz_justified.specs.Answers.{OnMade};
ghost use Rattle.mz_walk.specs.Walked.{state, OneByOne};
ghost use Rattle.mz_walk.specs.Skeleton.{letting, LetsDeclared, LetsReserved, Lets};
ghost use Rattle.mz_walk.specs.Answers.{reached};

use mz_base::place::Place;
use mz_context::context::Context;
use mz_core::outcome::Left;
use mz_environment::environment::Environment;
use mz_justified::proof_fault::{ProofFault, ProofRefusal};
use mz_parts::declarations::{declare, reserved_variable};
use mz_performing::fault::resolved;
use mz_performing::perform::{perform_all, perform_alone};
use mz_performing::read_steps::let_steps;
use mz_steps::block::Block;
use mz_steps::read_step::ReadStep;
use mz_tree::chain::Next;
use mz_tree::expressions::DeclarationsTree;
use mz_tree::nodes::{DeclarationsNode, DeclaredNode};
use mz_tree::word::{Comma, Word};
use std::alloc::Global;

/// A declared identifier: the variables that have their type now are put into force.
#[tactic(auto, using(crate::proofs::LetLemmas::declared_rules))]
fn let_declared(
    alloc: Global,
    env: &Environment,
    ctx: &mut Context,
    block: &mut Block,
    first: Place,
    node: &DeclaredNode,
    waiting: &mut Vec<Word>,
    left: &mut Left,
) -> Result<(), ProofFault>
    ensures { OnMade result (λ o. LetsDeclared env.now first (letting (state ctx.old block.old left.old) waiting.old.items) (declared_of node.now) (reached o (letting (state ctx.new block.new left.new) waiting.new.items))) }
{
    match declare(alloc, env, ctx, 0, node, waiting, left) {
        Ok(vs) => {
            let steps = let_steps(alloc, &vs)?;
            perform_all(alloc, env, ctx, block, first, &steps)
        }
        Err(f) => Err(resolved(f)),
    }
}

/// Declared identifiers, one by one.
#[tactic(auto, using(crate::proofs::LetLemmas::each_rules))]
fn let_each(
    alloc: Global,
    env: &Environment,
    ctx: &mut Context,
    block: &mut Block,
    first: Place,
    nodes: &[Next<Comma, DeclaredNode>],
    waiting: &mut Vec<Word>,
    left: &mut Left,
) -> Result<(), ProofFault>
    ensures { OnMade result (λ o. OneByOne (LetsDeclared env.now first) (letting (state ctx.old block.old left.old) waiting.old.items) (map declared_tree nodes.now) (reached o (letting (state ctx.new block.new left.new) waiting.new.items))) }
{
    let mut rest = nodes;
    while let Some((next, others)) = rest.split_first() {
        match let_declared(alloc, env, ctx, block, first, &next.tree, waiting, left) {
            Ok(()) => rest = others,
            Err(f) => return Err(f),
        }
    }
    Ok(())
}

/// All declared identifiers, one by one.
#[tactic(auto, using(crate::proofs::LetLemmas::all_rules))]
fn let_all(
    alloc: Global,
    env: &Environment,
    ctx: &mut Context,
    block: &mut Block,
    first: Place,
    node: &DeclarationsNode,
    waiting: &mut Vec<Word>,
    left: &mut Left,
) -> Result<(), ProofFault>
    ensures { OnMade result (λ o. OneByOne (LetsDeclared env.now first) (letting (state ctx.old block.old left.old) waiting.old.items) (declared_of node.now.first ∷ map declared_tree node.now.more.items) (reached o (letting (state ctx.new block.new left.new) waiting.new.items))) }
{
    match let_declared(alloc, env, ctx, block, first, &node.first, waiting, left) {
        Ok(()) => let_each(
            alloc,
            env,
            ctx,
            block,
            first,
            node.more.as_slice(),
            waiting,
            left,
        ),
        Err(f) => Err(f),
    }
}

/// An identifier that no type follows: it has the type with which it was reserved.
#[tactic(auto, using(crate::proofs::LetLemmas::reserved_rules))]
fn let_reserved(
    alloc: Global,
    env: &Environment,
    ctx: &mut Context,
    block: &mut Block,
    first: Place,
    w: &Word,
) -> Result<(), ProofFault>
    ensures { (l : Left) → OnMade result (λ o. LetsReserved env.now first (state ctx.old block.old l) w.now (reached o (state ctx.new block.new l))) }
{
    match reserved_variable(alloc, 0, ctx, w)? {
        Ok(v) => perform_alone(alloc, env, ctx, block, first, &ReadStep::Let(v)),
        Err(r) => Err(ProofFault::Refused(ProofRefusal::Resolve(r))),
    }
}

/// Identifiers that no type follows, one by one.
#[tactic(auto, using(crate::proofs::LetLemmas::words_rules))]
fn let_waiting(
    alloc: Global,
    env: &Environment,
    ctx: &mut Context,
    block: &mut Block,
    first: Place,
    words: &[Word],
) -> Result<(), ProofFault>
    ensures { (l : Left) → OnMade result (λ o. OneByOne (LetsReserved env.now first) (state ctx.old block.old l) words.now (reached o (state ctx.new block.new l))) }
{
    let mut rest = words;
    while let Some((w, others)) = rest.split_first() {
        match let_reserved(alloc, env, ctx, block, first, w) {
            Ok(()) => rest = others,
            Err(f) => return Err(f),
        }
    }
    Ok(())
}

/// Declarations behind `let`: all declared identifiers, and then those that still wait for a type.
#[tactic(auto, using(crate::proofs::LetLemmas::lets_rules))]
pub fn lets(
    alloc: Global,
    env: &Environment,
    ctx: &mut Context,
    block: &mut Block,
    first: Place,
    tree: &DeclarationsTree,
    left: &mut Left,
) -> Result<(), ProofFault>
    ensures { OnMade result (λ o. Lets env.now first (state ctx.old block.old left.old) (declared_in tree.now) (reached o (state ctx.new block.new left.new))) }
{
    let mut waiting = Vec::new(alloc);
    match let_all(
        alloc,
        env,
        ctx,
        block,
        first,
        tree.node(),
        &mut waiting,
        left,
    ) {
        Ok(()) => let_waiting(alloc, env, ctx, block, first, waiting.as_slice()),
        Err(f) => Err(f),
    }
}
