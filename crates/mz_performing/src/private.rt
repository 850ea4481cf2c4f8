//! `deffunc` and `defpred`.
ghost use Rattle.mz_justified.specs.Answers.{OnMade};
ghost use Rattle.mz_walk.specs.Walked.{state};
ghost use Rattle.mz_walk.specs.Introductions.{DefinesFunctor, DefinesPredicate};
ghost use Rattle.mz_walk.specs.Answers.{reached};

use crate::fault::resolved;
use mz_context::context::Context;
use mz_core::outcome::Left;
use mz_justified::proof_fault::ProofFault;
use mz_justified::walker::Walker;
use mz_private::private::{put_functor, put_predicate, read_functor, read_predicate};
use mz_steps::block::Block;
use mz_tree_proof::introduction::{DeffuncTree, DefpredTree};

/// A private functor: it is read, and then it is in force.
#[tactic(auto, using(crate::proofs::PrivateLemmas::functor_rules))]
pub fn define_functor(
    walker: Walker<'_>,
    ctx: &mut Context,
    block: &Block,
    tree: &DeffuncTree,
    left: &mut Left,
) -> Result<(), ProofFault>
    ensures { OnMade result (λ o. DefinesFunctor walker.entry.env.now (state ctx.old block.now left.old) tree.now (reached o (state ctx.new block.now left.new))) }
{
    match read_functor(walker.alloc, walker.env, ctx, 0, tree, left) {
        Ok(f) => {
            put_functor(ctx, f)?;
            Ok(())
        }
        Err(f) => Err(resolved(f)),
    }
}

/// A private predicate: it is read, and then it is in force.
#[tactic(auto, using(crate::proofs::PrivateLemmas::predicate_rules))]
pub fn define_predicate(
    walker: Walker<'_>,
    ctx: &mut Context,
    block: &Block,
    tree: &DefpredTree,
    left: &mut Left,
) -> Result<(), ProofFault>
    ensures { OnMade result (λ o. DefinesPredicate walker.entry.env.now (state ctx.old block.now left.old) tree.now (reached o (state ctx.new block.now left.new))) }
{
    match read_predicate(walker.alloc, walker.env, ctx, 0, tree, left) {
        Ok(p) => {
            put_predicate(ctx, p)?;
            Ok(())
        }
        Err(f) => Err(resolved(f)),
    }
}
