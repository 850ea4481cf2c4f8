//! What a case states, and what stands behind the cases of a split.
ghost use Rattle.std.specs.Prelude.{◌≡◌, ◌++◌, ◌∷◌, IfOk, OnOk};
ghost use Rattle.mz_sizes.specs.Sizes.{statement_keeps};
ghost use Rattle.mz_applied.specs.Within.{within};
ghost use Rattle.mz_steps.specs.Changes.{with_stated, outside_of};
ghost use Rattle.mz_justified.specs.Answers.{OnMade};
ghost use Rattle.mz_justified.specs.Justified.{IsPut, Owes, place_of};
ghost use Rattle.mz_walk.specs.Walk.{disjunction_of};
ghost use Rattle.mz_performing.specs.Splits.{with_truth, IsPutFirst, SplitEnds};

use mz_applied::within::within_statement;
use mz_base::place::Place;
use mz_context::context::Context;
use mz_context::labelled::LabelledStatements;
use mz_core::statement::Statement;
use mz_core::statements::Statements;
use mz_given::given::Given;
use mz_justified::grounds::place_of;
use mz_justified::justified::oblige;
use mz_justified::proof_fault::{ProofFault, ProofRefusal};
use mz_justified::walker::Walker;
use mz_names::refusal::Refusal;
use mz_obligations::obligation::Obligations;
use mz_parts::joined::disjoin;
use mz_steps::block::Outside;
use mz_steps::changes::{begin_now, state};
use mz_tree_proof::skeleton::SplitTree;
use std::alloc::{AllocError, Global};

/// States what a case supposes. Gives what has to be put aside while the case lasts.
#[tactic(auto, using(crate::proofs::CaseLemmas::state_rules))]
pub fn state_case(
    alloc: Global,
    ctx: &mut Context,
    ps: &LabelledStatements,
) -> Result<Outside, AllocError>
    ensures outside { IfOk result (λ o. o ≡ outside_of ctx.old) }
    ensures context { OnOk result (ctx.new ≡ with_stated ctx.old ps.now) }
{
    let outside = begin_now(alloc, ctx)?;
    state(alloc, ctx, ps)?;
    Ok(outside)
}

/// The disjunction of what all cases suppose, grouped to the left; contradiction where there is no case. `TooLarge` at the place.
#[tactic(auto, using(crate::proofs::CaseLemmas::disjunction_rules))]
pub fn disjunction_of(
    alloc: Global,
    first: Place,
    suppositions: Statements,
) -> Result<Result<Statement, Refusal>, AllocError>
    ensures { IfOk result (λ o. o ≡ within statement_keeps first (disjunction_of suppositions)) }
{
    let mut rest = suppositions;
    if rest.items.is_empty() {
        let s = Statement::not(alloc, Statement::truth())?;
        let o = within_statement(first, s);
        return Ok(o);
    }
    let s = rest.items.remove(0);
    disjoin(alloc, first, s, &rest)
}

/// Nothing is left of the thesis, and there is no statement just before.
fn end_thesis(ctx: &mut Context)
    ensures { ctx.new ≡ with_truth ctx.old }
{
    ctx.thesis = Some(Statement::truth());
    ctx.previous = None;
}

/// Puts the obligation that one of the cases holds, by what is given, in front of those of the cases, and all of them behind the
/// others.
#[tactic(auto, using(crate::proofs::CaseLemmas::oblige_rules))]
fn oblige_cases(
    walker: Walker<'_>,
    ctx: &Context,
    tree: &SplitTree,
    given: &Given,
    s: &Statement,
    inner: Obligations,
    os: &mut Obligations,
) -> Result<(), AllocError>
    ensures { OnOk result (IsPutFirst (Owes walker.entry.env.now walker.entry.at ctx.now given.now s.now (place_of tree.now.semicolon tree.now.simple)) inner os.old os.new) }
{
    let place = place_of(tree.semicolon, &tree.simple);
    oblige(walker, ctx, given, s, place, os)?;
    os.append(inner)
}

/// What stands behind the cases of a split: it is owed that one of them holds. `TooLarge` at the place where that is beyond the
/// limits.
#[tactic(auto, using(crate::proofs::CaseLemmas::split_rules))]
pub fn end_split(
    walker: Walker<'_>,
    ctx: &mut Context,
    first: Place,
    tree: &SplitTree,
    given: &Given,
    suppositions: Statements,
    inner: Obligations,
    os: &mut Obligations,
) -> Result<(), ProofFault>
    ensures { OnMade result (SplitEnds walker.entry.env.now walker.entry.at ctx.old ctx.new first tree.now given.now suppositions inner os.old os.new) }
{
    match disjunction_of(walker.alloc, first, suppositions)? {
        Ok(s) => {
            oblige_cases(walker, ctx, tree, given, &s, inner, os)?;
            end_thesis(ctx);
            Ok(())
        }
        Err(r) => Err(ProofFault::Refused(ProofRefusal::Resolve(r))),
    }
}
