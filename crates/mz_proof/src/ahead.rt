//! What can be told of a split before its justification.
ghost use Rattle.std.specs.Prelude.{◌≡◌, map, IfOk, OnOk};
ghost use Rattle.mz_core.specs.Parts.{conjunction};
ghost use Rattle.mz_tree_proof.specs.Reasoning.{supposes_of, more_supposes};
ghost use Rattle.mz_steps.specs.Changes.{statement_of};
ghost use Rattle.mz_justified.specs.Answers.{OnMade};
ghost use Rattle.mz_walk.specs.Walk.{nodes_alone, Foresees};
ghost use Rattle.mz_proof.specs.Ahead.{ReadsCase, ReadsCases, told_ahead, foreseen_of};

use crate::parts::case_parts;
use mz_context::context::Context;
use mz_context::labelled::LabelledStatements;
use mz_core::items::Items;
use mz_core::outcome::Left;
use mz_core::parts::conjunction;
use mz_core::statement::Statement;
use mz_core::statements::Statements;
use mz_justified::kept::justification_keeps;
use mz_justified::proof_fault::{ProofFault, ProofRefusal};
use mz_justified::walker::{Opening, Walker};
use mz_names::refusal::Refusal;
use mz_parts::propositions::read_hypotheses;
use mz_performing::cases::disjunction_of;
use mz_performing::linked::is_linked;
use mz_resolve::resolve_fault::ResolveFault;
use mz_steps::changes::statements_of;
use mz_tree_proof::reasoning::{SupposeTree, SupposeTrees};
use mz_tree_proof::references::SimpleTree;
use std::alloc::{AllocError, Global};

/// The conjunction of the propositions.
fn joined(alloc: Global, ps: &LabelledStatements) -> Result<Statement, AllocError>
    ensures { IfOk result (λ s. s ≡ conjunction (map statement_of ps.now)) }
{
    let ss = statements_of(alloc, ps.items.as_slice())?;
    conjunction(alloc, &ss)
}

/// Reads what a case supposes, and puts its conjunction behind those of other cases. Whether it could be read.
#[tactic(auto, using(crate::proofs::AheadLemmas::case_rules))]
fn read_case(
    walker: Walker<'_>,
    ctx: &mut Context,
    tree: &SupposeTree,
    left: &mut Left,
    out: &mut Statements,
) -> Result<bool, AllocError>
    ensures reads { IfOk result (λ b. ReadsCase walker.entry.env.now ctx.old tree.now left.old left.new out.old out.new b) }
    ensures same { OnOk result (ctx.new ≡ ctx.old) }
{
    let (_, hypotheses, _, _, _, _) = case_parts(tree);
    match read_hypotheses(walker.alloc, walker.env, ctx, 0, hypotheses, left) {
        Ok(ps) => {
            let s = joined(walker.alloc, &ps)?;
            out.push(s)?;
            Ok(true)
        }
        Err(f) => match f {
            ResolveFault::Refused(_) => Ok(false),
            ResolveFault::Memory => Err(AllocError),
        },
    }
}

/// The same of all cases.
#[tactic(auto, using(crate::proofs::AheadLemmas::reading_rules))]
fn read_cases(
    walker: Walker<'_>,
    ctx: &mut Context,
    case: &SupposeTree,
    more: &SupposeTrees,
    left: &mut Left,
    out: &mut Statements,
) -> Result<bool, AllocError>
    ensures reads { IfOk result (λ b. ReadsCases walker.entry.env.now ctx.old (more_supposes case.now (supposes_of more.now)) left.old out.old out.new b) }
    ensures same { OnOk result (ctx.new ≡ ctx.old) }
{
    if !read_case(walker, ctx, case, left, out)? {
        return Ok(false);
    }
    for t in &more.items {
        if !read_case(walker, ctx, t, left, out)? {
            return Ok(false);
        }
    }
    Ok(true)
}

/// The nodes alone of what is left.
fn nodes_alone(alloc: Global, left: &Left) -> Left
    ensures { result ≡ nodes_alone left.now }
{
    Left {
        nodes: left.nodes,
        obligations: 0,
        made: Items::new(alloc),
    }
}

/// What the cases suppose, read ahead of what they prove. Whether all of it could be read.
fn read_ahead(
    walker: Walker<'_>,
    ctx: &mut Context,
    case: &SupposeTree,
    more: &SupposeTrees,
    left: &Left,
    out: &mut Statements,
) -> Result<bool, AllocError>
    ensures reads { IfOk result (λ b. ReadsCases walker.entry.env.now ctx.old (more_supposes case.now (supposes_of more.now)) (nodes_alone left.now) out.old out.new b) }
    ensures same { OnOk result (ctx.new ≡ ctx.old) }
{
    let mut ahead = nodes_alone(walker.alloc, left);
    read_cases(walker, ctx, case, more, &mut ahead, out)
}

/// The same of the disjunction, or why it isn't made.
#[tactic(auto, using(crate::proofs::AheadLemmas::large_rules))]
fn foresee_instances(
    walker: Walker<'_>,
    ctx: &Context,
    opening: Opening,
    tree: &SimpleTree,
    disjunction: Result<Statement, Refusal>,
) -> Result<(), ProofFault>
    ensures { OnMade result (λ o. told_ahead o ≡ foreseen_of walker.entry.env.now opening.first ctx.now opening.linked tree.now disjunction) }
{
    match disjunction {
        Err(r) => Err(ProofFault::Refused(ProofRefusal::Resolve(r))),
        Ok(s) => {
            let kept = justification_keeps(walker, ctx, opening.linked, tree, &s)?;
            if !kept {
                return Err(ProofFault::Refused(ProofRefusal::Resolve(Refusal::TooLarge(
                    opening.first,
                ))));
            }
            Ok(())
        }
    }
}

/// Sees whether something can be told of a split before its justification. The context is as before.
///
/// Refusals, at the place: `StepNoFit` where it is linked and there is no statement just before; `TooLarge` where all that its
/// cases suppose can be read and their disjunction, or an instance of a scheme that the justification makes for it, is beyond the limits.
#[tactic(auto, using(crate::proofs::AheadLemmas::foresee_rules))]
pub fn foresee(
    walker: Walker<'_>,
    ctx: &mut Context,
    opening: Opening,
    tree: &SimpleTree,
    case: &SupposeTree,
    more: &SupposeTrees,
    left: &Left,
) -> Result<(), ProofFault>
    ensures foresees { OnMade result (λ o. Foresees walker.entry.env.now opening.first ctx.old left.now opening.linked tree.now (more_supposes case.now (supposes_of more.now)) (told_ahead o)) }
    ensures same { OnOk result (ctx.new ≡ ctx.old) }
{
    if !is_linked(opening.linked, ctx) {
        return Err(ProofFault::Refused(ProofRefusal::StepNoFit(opening.first)));
    }
    let mut supposed = Statements::new(walker.alloc);
    if !read_ahead(walker, ctx, case, more, left, &mut supposed)? {
        return Ok(());
    }
    let disjunction = disjunction_of(walker.alloc, opening.first, supposed)?;
    foresee_instances(walker, ctx, opening, tree, disjunction)
}
