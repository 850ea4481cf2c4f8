//! What can be told of an iterative equality of which a side isn't read: whether what can be made of the sides in front of it keeps the
//! limits of an expression.
ghost use Rattle.std.specs.Prelude.{◌≡◌, [], map, IfOk, OnOk};
ghost use Rattle.mz_choice.specs.Fresh.{Grown};
ghost use Rattle.mz_names.specs.Closing.{with_variables};
ghost use Rattle.mz_parts.specs.Named.{side_of};
ghost use Rattle.mz_walk.specs.Within.{all_kept};
ghost use Rattle.mz_walk.specs.Ahead.{TermsBegun, equations_behind, equations_begun, first_keeps, further_keep, begun_keep, KeepsAhead};
ghost use Rattle.mz_walk.specs.Walk.{only_nodes};

use crate::equalities::all_closed;
use crate::sides::sides_keep;
use mz_choice::fresh::keep;
use mz_context::context::Context;
use mz_core::items::Items;
use mz_core::outcome::Left;
use mz_core::statement::{Statement, StatementNode};
use mz_core::statements::Statements;
use mz_formulas::declared::put_each;
use mz_formulas::sentence::Sentence;
use mz_justified::kept::justification_keeps;
use mz_justified::walker::Walker;
use mz_logic::term::Terms;
use mz_names::variable::Variables;
use mz_resolve::calls::{sentence, term};
use mz_resolve::resolve_fault::ResolveFault;
use mz_steps::equalities::neighbours;
use mz_steps::rows::next_number;
use mz_tree_proof::equality_step::EqualityStepTree;
use mz_tree_proof::propositions::PropositionTree;
use mz_tree_proof::reasoning::{JustNode, JustTree};
use std::alloc::{AllocError, Global};

/// Reads further sides one after another, up to the first that isn't read, and puts the terms behind the others.
#[tactic(auto, using(crate::proofs::AheadLemmas::side_rules))]
fn read_each(
    walker: Walker<'_>,
    ctx: &Context,
    sides: &[EqualityStepTree],
    left: &mut Left,
    out: &mut Terms,
) -> Result<(), AllocError>
    ensures { OnOk result (TermsBegun walker.entry.env.now ctx.now left.old (map side_of sides.now) out.old out.new) }
{
    let mut rest = sides;
    while let Some((k, others)) = rest.split_first() {
        match term(walker.alloc, walker.env, ctx, 0, &k.term, left) {
            Ok(t) => {
                out.push(t)?;
                rest = others;
            }
            Err(f) => match f {
                ResolveFault::Refused(_) => return Ok(()),
                ResolveFault::Memory => return Err(AllocError),
            },
        }
    }
    Ok(())
}

/// The same from the first on, with the variables left in force.
#[tactic(auto, using(crate::proofs::AheadLemmas::inside_rules))]
fn read_inside(
    walker: Walker<'_>,
    ctx: &mut Context,
    vs: &Variables,
    sides: &[EqualityStepTree],
    left: &mut Left,
) -> Result<Terms, AllocError>
    ensures reads { IfOk result (λ us. TermsBegun walker.entry.env.now (with_variables ctx.old vs.now) left.old (map side_of sides.now) [] us) }
    ensures grown { Grown ctx.old ctx.new }
{
    put_each(walker.alloc, ctx, vs.items.as_slice())?;
    let mut out = Terms::new(walker.alloc);
    read_each(walker, ctx, sides, left, &mut out)?;
    Ok(out)
}

/// The further sides up to the first that isn't read, where the free reserved variables of the first formula are constants. The
/// context is as before.
#[tactic(auto, using(crate::proofs::AheadLemmas::outside_rules))]
fn read_begun(
    walker: Walker<'_>,
    ctx: &mut Context,
    vs: &Variables,
    sides: &[EqualityStepTree],
    left: &mut Left,
) -> Result<Terms, AllocError>
    ensures reads { IfOk result (λ us. TermsBegun walker.entry.env.now (with_variables ctx.old vs.now) left.old (map side_of sides.now) [] us) }
    ensures same { ctx.new ≡ ctx.old }
{
    let count = ctx.constants.items.len();
    match read_inside(walker, ctx, vs, sides, left) {
        Ok(us) => {
            keep(ctx, count);
            Ok(us)
        }
        Err(f) => {
            keep(ctx, count);
            Err(f)
        }
    }
}

/// The equations of these further sides behind the formula; none behind one that is no equation.
#[tactic(auto, using(crate::proofs::AheadLemmas::behind_rules))]
fn equations_behind(alloc: Global, s: &Statement, us: &Terms) -> Result<Statements, AllocError>
    ensures { IfOk result (λ ss. ss ≡ equations_behind s.now us.now) }
{
    match &s.node {
        StatementNode::Eq(_, u) => {
            let ss = neighbours(alloc, u, us.items.as_slice())?;
            Ok(ss)
        }
        _ => Ok(Statements::new(alloc)),
    }
}

/// Whether these equations, and the instances that the justifications of further sides make for them, keep the limits.
#[tactic(auto, using(crate::proofs::AheadLemmas::further_rules))]
fn further_keep(
    walker: Walker<'_>,
    ctx: &Context,
    sides: &[EqualityStepTree],
    x: &Sentence,
    us: &Terms,
) -> Result<bool, AllocError>
    ensures { IfOk result (λ b. b ≡ further_keep walker.entry.env.now ctx.now sides.now (all_kept (equations_begun ctx.now x.now us.now))) }
{
    let n = next_number(ctx)?;
    let ss = equations_behind(walker.alloc, &x.inner, us)?;
    match all_closed(walker.alloc, n, &x.variables, &ss)? {
        None => Ok(false),
        Some(closed) => {
            let kept = sides_keep(walker, ctx, sides, closed.items.as_slice())?;
            Ok(kept)
        }
    }
}

/// Whether the instances that the first justification makes for the sentence keep the limits. A proof makes none.
fn first_keeps(
    walker: Walker<'_>,
    ctx: &Context,
    linked: bool,
    just: &JustTree,
    s: &Statement,
) -> Result<bool, AllocError>
    ensures { IfOk result (λ b. b ≡ first_keeps walker.entry.env.now ctx.now linked just.now s.now) }
{
    match &just.node {
        JustNode::Simple(t) => justification_keeps(walker, ctx, linked, t, s),
        JustNode::Proof(..) => Ok(true),
    }
}

/// The same of the sentence and of these further sides.
#[tactic(auto, using(crate::proofs::AheadLemmas::begun_rules))]
fn begun_keep(
    walker: Walker<'_>,
    ctx: &Context,
    linked: bool,
    just: &JustTree,
    sides: &[EqualityStepTree],
    x: &Sentence,
    us: &Terms,
) -> Result<bool, AllocError>
    ensures { IfOk result (λ b. b ≡ begun_keep walker.entry.env.now ctx.now linked just.now sides.now x.now us.now) }
{
    let first = first_keeps(walker, ctx, linked, just, &x.closed)?;
    let further = further_keep(walker, ctx, sides, x, us)?;
    Ok(first && further)
}

/// The same of what is read of the step, which lowers what is left. The context is as before.
#[tactic(auto, using(crate::proofs::AheadLemmas::ahead_rules))]
fn read_ahead(
    walker: Walker<'_>,
    ctx: &mut Context,
    linked: bool,
    p: &PropositionTree,
    just: &JustTree,
    sides: &[EqualityStepTree],
    left: &mut Left,
) -> Result<bool, AllocError>
    ensures keeps { IfOk result (λ b. KeepsAhead walker.entry.env.now ctx.old linked left.old p.now just.now sides.now b) }
    ensures same { ctx.new ≡ ctx.old }
{
    match sentence(walker.alloc, walker.env, ctx, 0, &p.formula, left) {
        Ok(x) => {
            let us = read_begun(walker, ctx, &x.variables, sides, left)?;
            let kept = begun_keep(walker, ctx, linked, just, sides, &x, &us)?;
            Ok(kept)
        }
        Err(f) => match f {
            ResolveFault::Refused(_) => Ok(true),
            ResolveFault::Memory => Err(AllocError),
        },
    }
}

/// Whether the equations in front of the first side that isn't read, and the instances that the justifications make for them, have at
/// most 65,536 nodes and a depth of at most 512 each, where the article had so many nodes left before the step. The context is as
/// before.
pub fn keeps_ahead(
    walker: Walker<'_>,
    ctx: &mut Context,
    linked: bool,
    p: &PropositionTree,
    just: &JustTree,
    sides: &[EqualityStepTree],
    nodes: u64,
) -> Result<bool, AllocError>
    ensures keeps { IfOk result (λ b. KeepsAhead walker.entry.env.now ctx.old linked (only_nodes nodes) p.now just.now sides.now b) }
    ensures same { ctx.new ≡ ctx.old }
{
    let mut ahead = Left {
        nodes,
        obligations: 0,
        made: Items::new(walker.alloc),
    };
    read_ahead(walker, ctx, linked, p, just, sides, &mut ahead)
}
