//! Propositions: sentences with labels or without.
ghost use Rattle.std.specs.Prelude.{◌≡◌, ◌++◌, ◌∷◌, [], map, IfOk, OnOk};
ghost use Rattle.mz_resolve.specs.Answers.{OnRead};
ghost use Rattle.mz_parts.specs.Propositions.{label_in, stated_by, PropositionsReadBehind, PropositionsRead, all_read, behind_and, propositions_in, hypotheses_in};

use mz_base::text::Text;
use mz_context::context::Context;
use mz_context::labelled::{LabelledStatement, LabelledStatements};
use mz_core::outcome::Left;
use mz_environment::environment::Environment;
use mz_formulas::sentence::Sentence;
use mz_resolve::calls::sentence;
use mz_resolve::resolve_fault::ResolveFault;
use mz_tree_proof::propositions::{
    AndPropositionTree, HypothesesTree, PropositionTree, PropositionsTree,
};
use mz_tree_proof::references::LabelTree;
use std::alloc::{AllocError, Global};

/// The label, which is empty where none is written.
fn label_in(alloc: Global, label: &Option<LabelTree>) -> Result<Text, AllocError>
    ensures { IfOk result (λ t. t ≡ label_in label.now) }
{
    match label {
        None => Ok(Text::new(alloc)),
        Some(l) => l.name.spelling.copy(alloc),
    }
}

/// The closed sentence of the proposition under its label.
pub fn stated_by(
    alloc: Global,
    p: &PropositionTree,
    s: &Sentence,
) -> Result<LabelledStatement, AllocError>
    ensures { IfOk result (λ q. q ≡ stated_by p.now s.now) }
{
    let label = label_in(alloc, &p.label)?;
    let statement = s.closed.copy(alloc)?;
    Ok(LabelledStatement { label, statement })
}

/// Puts a sentence, under its proposition's label, behind the others.
fn put_stated(
    alloc: Global,
    p: &PropositionTree,
    s: Sentence,
    out: &mut LabelledStatements,
) -> Result<(), AllocError>
    ensures { OnOk result (out.new ≡ out.old ++ stated_by p.now s ∷ []) }
{
    let q = stated_by(alloc, p, &s)?;
    out.push(q)
}

/// Reads a proposition, and puts it behind the others.
#[tactic(auto, using(crate::proofs::PropositionLemmas::one_rules))]
fn read_one(
    alloc: Global,
    env: &Environment,
    ctx: &mut Context,
    least: u32,
    p: &PropositionTree,
    out: &mut LabelledStatements,
    left: &mut Left,
) -> Result<(), ResolveFault>
    ensures reads { OnRead result (λ o. PropositionsReadBehind env.now ctx.old least left.old (p.now ∷ []) out.old (all_read o out.new) left.new) }
    ensures same { ctx.new ≡ ctx.old }
{
    match sentence(alloc, env, ctx, least, &p.formula, left) {
        Ok(s) => {
            put_stated(alloc, p, s, out)?;
            Ok(())
        }
        Err(f) => Err(f),
    }
}

/// Reads propositions one after another, and puts them behind the others.
#[tactic(auto, using(crate::proofs::PropositionLemmas::each_rules))]
fn read_each(
    alloc: Global,
    env: &Environment,
    ctx: &mut Context,
    least: u32,
    ps: &[AndPropositionTree],
    out: &mut LabelledStatements,
    left: &mut Left,
) -> Result<(), ResolveFault>
    ensures reads { OnRead result (λ o. PropositionsReadBehind env.now ctx.old least left.old (map behind_and ps.now) out.old (all_read o out.new) left.new) }
    ensures same { ctx.new ≡ ctx.old }
{
    let mut rest = ps;
    while let Some((p, others)) = rest.split_first() {
        match read_one(alloc, env, ctx, least, &p.proposition, out, left) {
            Ok(()) => rest = others,
            Err(f) => return Err(f),
        }
    }
    Ok(())
}

/// Reads all of them, and puts them behind the others.
#[tactic(auto, using(crate::proofs::PropositionLemmas::all_rules))]
fn read_all(
    alloc: Global,
    env: &Environment,
    ctx: &mut Context,
    least: u32,
    ps: &PropositionsTree,
    out: &mut LabelledStatements,
    left: &mut Left,
) -> Result<(), ResolveFault>
    ensures reads { OnRead result (λ o. PropositionsReadBehind env.now ctx.old least left.old (propositions_in ps.now) out.old (all_read o out.new) left.new) }
    ensures same { ctx.new ≡ ctx.old }
{
    match read_one(alloc, env, ctx, least, &ps.first, out, left) {
        Ok(()) => read_each(alloc, env, ctx, least, ps.more.items.as_slice(), out, left),
        Err(f) => Err(f),
    }
}

/// Propositions, which are read one after another, all in the same context: each closed sentence under its label. The context
/// is as before.
///
/// Refusals: those of the sentences.
#[tactic(auto, using(crate::proofs::PropositionLemmas::whole_rules))]
pub fn read_propositions(
    alloc: Global,
    env: &Environment,
    ctx: &mut Context,
    least: u32,
    ps: &PropositionsTree,
    left: &mut Left,
) -> Result<LabelledStatements, ResolveFault>
    ensures reads { OnRead result (λ o. PropositionsRead env.now ctx.old least left.old (propositions_in ps.now) o left.new) }
    ensures same { ctx.new ≡ ctx.old }
{
    let mut out = LabelledStatements::new(alloc);
    match read_all(alloc, env, ctx, least, ps, &mut out, left) {
        Ok(()) => Ok(out),
        Err(f) => Err(f),
    }
}

/// What is assumed: one proposition or several, which are read one after another, all in the same context. The context is as
/// before.
///
/// Refusals: those of the sentences.
#[tactic(auto, using(crate::proofs::PropositionLemmas::hypothesis_rules))]
pub fn read_hypotheses(
    alloc: Global,
    env: &Environment,
    ctx: &mut Context,
    least: u32,
    hs: &HypothesesTree,
    left: &mut Left,
) -> Result<LabelledStatements, ResolveFault>
    ensures reads { OnRead result (λ o. PropositionsRead env.now ctx.old least left.old (hypotheses_in hs.now) o left.new) }
    ensures same { ctx.new ≡ ctx.old }
{
    match hs {
        HypothesesTree::One(p) => {
            let mut out = LabelledStatements::new(alloc);
            match read_one(alloc, env, ctx, least, p, &mut out, left) {
                Ok(()) => Ok(out),
                Err(f) => Err(f),
            }
        }
        HypothesesTree::That { propositions, .. } => {
            read_propositions(alloc, env, ctx, least, propositions, left)
        }
    }
}
