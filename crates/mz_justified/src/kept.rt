//! Whether the instances that a justification makes keep the limits of an expression.
ghost use Rattle.std.specs.Prelude.{◌≡◌, IfOk};
ghost use Rattle.mz_justified.specs.Kept.{given_keeps, keeps_where_given, justification_keeps, justifications_keep};

use crate::walker::Walker;
use mz_context::context::Context;
use mz_core::statement::Statement;
use mz_from::kept::from_keeps;
use mz_given::given::{Given, cited_in, given_in};
use mz_tree_proof::references::SimpleTree;
use std::alloc::{AllocError, Global};

fn given_keeps(alloc: Global, given: &Given, s: &Statement) -> Result<bool, AllocError>
    ensures { IfOk result (λ b. b ≡ given_keeps given.now s.now) }
{
    match given {
        Given::ByStatements(_) => Ok(true),
        Given::ByScheme(scheme, cited) => from_keeps(alloc, scheme, cited, s),
    }
}

fn keeps_where_given(
    alloc: Global,
    given: &Option<Given>,
    s: &Statement,
) -> Result<bool, AllocError>
    ensures { IfOk result (λ b. b ≡ keeps_where_given given.now s.now) }
{
    match given {
        None => Ok(true),
        Some(g) => given_keeps(alloc, g, s),
    }
}

/// The same of a justification that cites a scheme.
#[tactic(auto, using(crate::proofs::KeptLemmas::cited_rules))]
fn cited_keeps(
    walker: Walker<'_>,
    ctx: &Context,
    linked: bool,
    tree: &SimpleTree,
    s: &Statement,
) -> Result<bool, AllocError>
    ensures { IfOk result (λ b. b ≡ justification_keeps walker.entry.env.now ctx.now linked tree.now s.now) }
{
    match cited_in(walker.alloc, walker.env, ctx, tree)? {
        Err(_) => Ok(true),
        Ok(cited) => {
            let given = given_in(walker.alloc, linked, ctx, cited)?;
            let kept = keeps_where_given(walker.alloc, &given, s)?;
            Ok(kept)
        }
    }
}

/// Whether the instances of a scheme that the justification makes for the statement have at most 65,536 nodes and a depth of at most 512
/// each. A justification that cites no scheme makes none, nor one that has a reference that cites nothing, nor one in a step that is
/// linked by `then` or `hence` and follows no statement.
#[tactic(auto, using(crate::proofs::KeptLemmas::plain_rules))]
pub fn justification_keeps(
    walker: Walker<'_>,
    ctx: &Context,
    linked: bool,
    tree: &SimpleTree,
    s: &Statement,
) -> Result<bool, AllocError>
    ensures { IfOk result (λ b. b ≡ justification_keeps walker.entry.env.now ctx.now linked tree.now s.now) }
{
    match tree {
        SimpleTree::Nothing => Ok(true),
        SimpleTree::By { .. } => Ok(true),
        SimpleTree::From { .. } => cited_keeps(walker, ctx, linked, tree, s),
    }
}

/// The same for each of the statements.
pub fn justifications_keep(
    walker: Walker<'_>,
    ctx: &Context,
    linked: bool,
    tree: &SimpleTree,
    ss: &[Statement],
) -> Result<bool, AllocError>
    ensures { IfOk result (λ b. b ≡ justifications_keep walker.entry.env.now ctx.now linked tree.now ss.now) }
{
    for s in ss {
        let kept = justification_keeps(walker, ctx, linked, tree, s)?;
        if !kept {
            return Ok(false);
        }
    }
    Ok(true)
}
