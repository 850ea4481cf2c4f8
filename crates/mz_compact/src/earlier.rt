//! What is told of an iterative equality of which a side isn't read: that what can be made of the sides in front of it is too large, or
//! else the refusal of a justification in front of it, where there is one.
ghost use Rattle.std.specs.Prelude.{◌≡◌, IfOk};
ghost use Rattle.mz_tree_proof.specs.Reasoning.{SimpleJust};
ghost use Rattle.mz_walk.specs.Earlier.{is_before, place_unread, place_refused, ungrounded, told_of_sides, told_first, large_or, told_unread};
ghost use Rattle.mz_performing.specs.Begun.{ToldAs};

use crate::sides::place_behind;
use mz_base::place::Place;
use mz_context::context::Context;
use mz_given::given::cited_in;
use mz_justified::grounds::place_of;
use mz_justified::proof_fault::{ProofFault, ProofRefusal};
use mz_justified::walker::Walker;
use mz_names::refusal::Refusal;
use mz_tree_proof::equality_step::EqualityStepTree;
use mz_tree_proof::reasoning::{JustNode, JustTree};
use mz_tree_proof::references::SimpleTree;
use std::alloc::AllocError;

/// Whether the first place stands before the second.
fn is_before(p: Place, q: Place) -> bool
    ensures { result ≡ is_before p q }
{
    p.line < q.line || p.line == q.line && p.column < q.column
}

fn place_unread(r: Refusal) -> Place
    ensures { result ≡ place_unread r }
{
    match r {
        Refusal::UnknownSymbol(p) => p,
        Refusal::NoNotation(p) => p,
        Refusal::UnknownVariable(p) => p,
        Refusal::Unregistered(p) => p,
        Refusal::UnfitArgument(p) => p,
        Refusal::TooLarge(p) => p,
    }
}

fn place_refused(r: ProofRefusal) -> Place
    ensures { result ≡ place_refused r }
{
    match r {
        ProofRefusal::StepNoFit(p) => p,
        ProofRefusal::ThesisLeft(p) => p,
        ProofRefusal::UnknownLabel(p) => p,
        ProofRefusal::Resolve(r) => place_unread(r),
        ProofRefusal::TooManyObligations(p) => p,
        ProofRefusal::NotBuilt(p) => p,
    }
}

/// Why the justification at the place isn't taken, where the article has `count` obligations left.
#[tactic(auto, using(crate::proofs::EarlierLemmas::ground_rules))]
fn ungrounded(
    walker: Walker<'_>,
    ctx: &Context,
    count: u32,
    place: Place,
    tree: &SimpleTree,
) -> Result<Option<ProofRefusal>, AllocError>
    ensures { IfOk result (λ o. o ≡ ungrounded walker.entry.env.now ctx.now count place tree.now) }
{
    if count == 0 {
        return Ok(Some(ProofRefusal::TooManyObligations(place)));
    }
    match cited_in(walker.alloc, walker.env, ctx, tree)? {
        Ok(_) => Ok(None),
        Err(p) => Ok(Some(ProofRefusal::UnknownLabel(p))),
    }
}

/// What is told among the justifications of further sides, one obligation for each.
#[tactic(auto, using(crate::proofs::EarlierLemmas::side_rules))]
fn told_of_sides(
    walker: Walker<'_>,
    ctx: &Context,
    semicolon: Place,
    count: u32,
    sides: &[EqualityStepTree],
    r: ProofRefusal,
) -> Result<ProofRefusal, AllocError>
    ensures { IfOk result (λ o. o ≡ told_of_sides walker.entry.env.now ctx.now semicolon count sides.now r) }
{
    let mut rest = sides;
    let mut n = count;
    while let Some((k, others)) = rest.split_first() {
        let place = place_of(place_behind(others, semicolon), &k.simple);
        if !is_before(place, place_refused(r)) {
            return Ok(r);
        }
        match ungrounded(walker, ctx, n, place, &k.simple)? {
            Some(q) => return Ok(q),
            None => {
                rest = others;
                n = n.saturating_sub(1);
            }
        }
    }
    Ok(r)
}

/// What is told among all justifications, where the first is this one, at the place.
#[tactic(auto, using(crate::proofs::EarlierLemmas::first_rules))]
fn told_from(
    walker: Walker<'_>,
    ctx: &Context,
    semicolon: Place,
    count: u32,
    tree: &SimpleTree,
    sides: &[EqualityStepTree],
    r: ProofRefusal,
) -> Result<ProofRefusal, AllocError>
    ensures { IfOk result (λ o. o ≡ told_first walker.entry.env.now ctx.now semicolon count (SimpleJust tree.now) sides.now r) }
{
    let place = place_of(place_behind(sides, semicolon), tree);
    if !is_before(place, place_refused(r)) {
        return Ok(r);
    }
    match ungrounded(walker, ctx, count, place, tree)? {
        Some(q) => Ok(q),
        None => told_of_sides(walker, ctx, semicolon, count.saturating_sub(1), sides, r),
    }
}

/// What is told among the justifications of a compact statement that isn't read, where the article had `count` obligations left before
/// it: a refusal of one that stands before that of the reading, or this one.
fn told_first(
    walker: Walker<'_>,
    ctx: &Context,
    semicolon: Place,
    count: u32,
    just: &JustTree,
    sides: &[EqualityStepTree],
    r: ProofRefusal,
) -> Result<ProofRefusal, AllocError>
    ensures { IfOk result (λ o. o ≡ told_first walker.entry.env.now ctx.now semicolon count just.now sides.now r) }
{
    match &just.node {
        JustNode::Simple(t) => told_from(walker, ctx, semicolon, count, t, sides, r),
        JustNode::Proof(..) => Ok(r),
    }
}

/// That the step is too large, at its first token, where this is before the place of the refusal; or else the other.
#[tactic(auto, using(crate::proofs::EarlierLemmas::large_rules))]
fn large_or(first: Place, r: ProofRefusal, rest: ProofRefusal) -> ProofRefusal
    ensures { result ≡ large_or first r rest }
{
    if is_before(first, place_refused(r)) {
        ProofRefusal::Resolve(Refusal::TooLarge(first))
    } else {
        rest
    }
}

/// What is told where a compact statement isn't read, and what can be made of it keeps the limits or doesn't.
#[tactic(auto, using(crate::proofs::EarlierLemmas::unread_rules))]
fn told_unread(
    walker: Walker<'_>,
    ctx: &Context,
    first: Place,
    semicolon: Place,
    count: u32,
    just: &JustTree,
    sides: &[EqualityStepTree],
    kept: bool,
    r: ProofRefusal,
) -> Result<ProofRefusal, AllocError>
    ensures { IfOk result (λ o. o ≡ told_unread walker.entry.env.now ctx.now first semicolon count just.now sides.now kept r) }
{
    let told = told_first(walker, ctx, semicolon, count, just, sides, r)?;
    if kept {
        Ok(told)
    } else {
        Ok(large_or(first, r, told))
    }
}

/// The same of a fault.
#[tactic(auto, using(crate::proofs::EarlierLemmas::fault_rules))]
pub fn tell(
    walker: Walker<'_>,
    ctx: &Context,
    first: Place,
    semicolon: Place,
    count: u32,
    just: &JustTree,
    sides: &[EqualityStepTree],
    kept: bool,
    f: ProofFault,
) -> ProofFault
    ensures { ToldAs (told_unread walker.entry.env.now ctx.now first semicolon count just.now sides.now kept) f result }
{
    match f {
        ProofFault::Memory => ProofFault::Memory,
        ProofFault::Refused(r) => {
            match told_unread(walker, ctx, first, semicolon, count, just, sides, kept, r) {
                Ok(q) => ProofFault::Refused(q),
                Err(_) => ProofFault::Memory,
            }
        }
    }
}
