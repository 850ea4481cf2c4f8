//! `assume`: hypotheses, each fitted before the next one is read, and stated together behind the last.
ghost use Rattle.std.specs.Prelude.{◌≡◌, ◌++◌, ◌∷◌, [], map, IfOk, OnOk};
ghost use Rattle.mz_core.specs.declared.outcome.Left.{Left};
ghost use Rattle.mz_parts.specs.Propositions.{stated_by, behind_and, propositions_in, hypotheses_in};
ghost use Rattle.mz_steps.specs.declared.read_step.ReadStep.TheVariants as read;
ghost use Rattle.mz_justified.specs.Answers.{OnMade};
ghost use Rattle.mz_walk.specs.Walked.{state, OneByOne};
ghost use Rattle.mz_walk.specs.Skeleton.{assuming, AssumesOne, Assumes, conditions_in};
ghost use Rattle.mz_walk.specs.Answers.{reached};

use mz_base::place::Place;
use mz_context::context::Context;
use mz_context::labelled::LabelledStatements;
use mz_core::outcome::Left;
use mz_environment::environment::Environment;
use mz_formulas::sentence::Sentence;
use mz_justified::proof_fault::ProofFault;
use mz_parts::propositions::stated_by;
use mz_performing::fault::resolved;
use mz_performing::perform::{perform_alone, state_within};
use mz_resolve::calls::sentence;
use mz_steps::block::Block;
use mz_steps::read_step::ReadStep;
use mz_tree_proof::propositions::{
    AndPropositionTree, HypothesesTree, PropositionTree, PropositionsTree, SuchTree,
};
use std::alloc::{AllocError, Global};

/// Puts the closed sentence of a hypothesis, under its label, behind what was stated.
fn put_stated(
    alloc: Global,
    tree: &PropositionTree,
    s: &Sentence,
    stated: &mut LabelledStatements,
) -> Result<(), AllocError>
    ensures { OnOk result (stated.new ≡ stated.old ++ stated_by tree.now s.now ∷ []) }
{
    let p = stated_by(alloc, tree, s)?;
    stated.push(p)
}

/// The step of a hypothesis as it was read; its sentence is put behind what was stated.
fn assume_step(
    alloc: Global,
    tree: &PropositionTree,
    s: Sentence,
    stated: &mut LabelledStatements,
) -> Result<ReadStep, AllocError>
    ensures step { IfOk result (λ r. r ≡ read.Assume s.closed) }
    ensures stated { OnOk result (stated.new ≡ stated.old ++ stated_by tree.now s ∷ []) }
{
    put_stated(alloc, tree, &s, stated)?;
    Ok(ReadStep::Assume(s.closed))
}

/// A hypothesis, which is put behind those that were stated.
#[tactic(auto, using(crate::proofs::AssumeLemmas::one_rules))]
fn assume_one(
    alloc: Global,
    env: &Environment,
    ctx: &mut Context,
    block: &mut Block,
    first: Place,
    tree: &PropositionTree,
    stated: &mut LabelledStatements,
    left: &mut Left,
) -> Result<(), ProofFault>
    ensures { OnMade result (λ o. AssumesOne env.now first (assuming (state ctx.old block.old left.old) stated.old) tree.now (reached o (assuming (state ctx.new block.new left.new) stated.new))) }
{
    match sentence(alloc, env, ctx, 0, &tree.formula, left) {
        Ok(s) => {
            let step = assume_step(alloc, tree, s, stated)?;
            perform_alone(alloc, env, ctx, block, first, &step)
        }
        Err(f) => Err(resolved(f)),
    }
}

/// Hypotheses, one by one.
#[tactic(auto, using(crate::proofs::AssumeLemmas::each_rules))]
fn assume_each(
    alloc: Global,
    env: &Environment,
    ctx: &mut Context,
    block: &mut Block,
    first: Place,
    trees: &[AndPropositionTree],
    stated: &mut LabelledStatements,
    left: &mut Left,
) -> Result<(), ProofFault>
    ensures { OnMade result (λ o. OneByOne (AssumesOne env.now first) (assuming (state ctx.old block.old left.old) stated.old) (map behind_and trees.now) (reached o (assuming (state ctx.new block.new left.new) stated.new))) }
{
    let mut rest = trees;
    while let Some((next, others)) = rest.split_first() {
        match assume_one(
            alloc,
            env,
            ctx,
            block,
            first,
            &next.proposition,
            stated,
            left,
        ) {
            Ok(()) => rest = others,
            Err(f) => return Err(f),
        }
    }
    Ok(())
}

/// All hypotheses, one by one.
#[tactic(auto, using(crate::proofs::AssumeLemmas::all_rules))]
fn assume_all(
    alloc: Global,
    env: &Environment,
    ctx: &mut Context,
    block: &mut Block,
    first: Place,
    trees: &PropositionsTree,
    stated: &mut LabelledStatements,
    left: &mut Left,
) -> Result<(), ProofFault>
    ensures { OnMade result (λ o. OneByOne (AssumesOne env.now first) (assuming (state ctx.old block.old left.old) stated.old) (propositions_in trees.now) (reached o (assuming (state ctx.new block.new left.new) stated.new))) }
{
    match assume_one(alloc, env, ctx, block, first, &trees.first, stated, left) {
        Ok(()) => {
            assume_each(
                alloc,
                env,
                ctx,
                block,
                first,
                trees.more.items.as_slice(),
                stated,
                left,
            )
        }
        Err(f) => Err(f),
    }
}

/// What is assumed: one hypothesis or several.
#[tactic(auto, using(crate::proofs::AssumeLemmas::hypotheses_rules))]
fn assume_hypotheses(
    alloc: Global,
    env: &Environment,
    ctx: &mut Context,
    block: &mut Block,
    first: Place,
    tree: &HypothesesTree,
    stated: &mut LabelledStatements,
    left: &mut Left,
) -> Result<(), ProofFault>
    ensures { OnMade result (λ o. OneByOne (AssumesOne env.now first) (assuming (state ctx.old block.old left.old) stated.old) (hypotheses_in tree.now) (reached o (assuming (state ctx.new block.new left.new) stated.new))) }
{
    match tree {
        HypothesesTree::One(p) => assume_one(alloc, env, ctx, block, first, p, stated, left),
        HypothesesTree::That { propositions, .. } => {
            assume_all(alloc, env, ctx, block, first, propositions, stated, left)
        }
    }
}

/// `assume`: hypotheses, which are stated together behind the last one.
#[tactic(auto, using(crate::proofs::AssumeLemmas::assumes_rules))]
pub fn assumes(
    alloc: Global,
    env: &Environment,
    ctx: &mut Context,
    block: &mut Block,
    first: Place,
    tree: &HypothesesTree,
    left: &mut Left,
) -> Result<(), ProofFault>
    ensures { OnMade result (λ o. Assumes env.now first (state ctx.old block.old left.old) (hypotheses_in tree.now) (reached o (state ctx.new block.new left.new))) }
{
    let mut stated = LabelledStatements::new(alloc);
    match assume_hypotheses(alloc, env, ctx, block, first, tree, &mut stated, left) {
        Ok(()) => state_within(alloc, ctx, block, first, &stated),
        Err(f) => Err(f),
    }
}

/// What is assumed behind `let`, where anything is: it is stated together.
#[tactic(auto, using(crate::proofs::AssumeLemmas::conditions_rules))]
pub fn assume_conditions(
    alloc: Global,
    env: &Environment,
    ctx: &mut Context,
    block: &mut Block,
    first: Place,
    tree: &Option<SuchTree>,
    left: &mut Left,
) -> Result<(), ProofFault>
    ensures { OnMade result (λ o. Assumes env.now first (state ctx.old block.old left.old) (conditions_in tree.now) (reached o (state ctx.new block.new left.new))) }
{
    let mut stated = LabelledStatements::new(alloc);
    match tree {
        None => state_within(alloc, ctx, block, first, &stated),
        Some(such) => {
            match assume_all(
                alloc,
                env,
                ctx,
                block,
                first,
                &such.propositions,
                &mut stated,
                left,
            ) {
                Ok(()) => state_within(alloc, ctx, block, first, &stated),
                Err(f) => Err(f),
            }
        }
    }
}
