//! Reservations.
ghost use Rattle.std.specs.Prelude.{◌≡◌, ◌++◌, ◌∷◌, [], IfOk, OnOk, map};
ghost use Rattle.mz_cited.specs.Cited.{members, tree_of};
ghost use Rattle.mz_resolve.specs.Answers.{OnRead};
ghost use Rattle.mz_reserve.specs.Reserve.{reserved_for, reserved_behind, with_reserved, Reserves, come_to};

use mz_context::context::Context;
use mz_context::reserved::{ReservedVariable, ReservedVariables};
use mz_core::outcome::Left;
use mz_core::soft_type::SoftType;
use mz_environment::environment::Environment;
use mz_resolve::calls::type_of;
use mz_resolve::resolve_fault::ResolveFault;
use mz_tree::chain::Next;
use mz_tree::lists::Separated;
use mz_tree::word::Comma;
use mz_tree_heading::patterns::IdentifierTree;
use mz_tree_part::reserve::SegmentTree;
use std::alloc::{AllocError, Global};

/// The identifier, reserved for the type.
fn reserved_for(
    alloc: Global,
    ty: &SoftType,
    word: &IdentifierTree,
) -> Result<ReservedVariable, AllocError>
    ensures { IfOk result (λ v. v ≡ reserved_for ty.now word.now) }
{
    let name = word.name.spelling.copy(alloc)?;
    let ty = ty.copy(alloc)?;
    Ok(ReservedVariable { name, ty })
}

fn reserved_behind(
    alloc: Global,
    ty: &SoftType,
    next: &Next<Comma, IdentifierTree>,
) -> Result<ReservedVariable, AllocError>
    ensures { IfOk result (λ v. v ≡ reserved_behind ty.now next.now) }
{
    let v = reserved_for(alloc, ty, &next.tree)?;
    Ok(v)
}

#[tactic(auto, using(crate::proofs::ReserveLemmas::push_rules))]
fn push_more(
    alloc: Global,
    ty: &SoftType,
    words: &[Next<Comma, IdentifierTree>],
    out: &mut ReservedVariables,
) -> Result<(), AllocError>
    ensures { OnOk result (out.new ≡ out.old ++ map (reserved_behind ty.now) words.now) }
{
    for next in words {
        out.push(reserved_behind(alloc, ty, next)?)?;
    }
    Ok(())
}

/// Puts the identifiers, reserved for the type, at the end.
#[tactic(auto, using(crate::proofs::ReserveLemmas::pushed))]
fn push_all(
    alloc: Global,
    ty: &SoftType,
    words: &Separated<IdentifierTree>,
    out: &mut ReservedVariables,
) -> Result<(), AllocError>
    ensures { OnOk result (out.new ≡ out.old ++ map (reserved_for ty.now) (members words.now)) }
{
    out.push(reserved_for(alloc, ty, &words.first)?)?;
    push_more(alloc, ty, words.more.items.as_slice(), out)
}

/// Reserves the identifiers for the type.
fn reserve_all(
    alloc: Global,
    ctx: &mut Context,
    ty: &SoftType,
    words: &Separated<IdentifierTree>,
) -> Result<(), AllocError>
    ensures { OnOk result (ctx.new ≡ with_reserved ctx.old ty.now (members words.now)) }
{
    push_all(alloc, ty, words, &mut ctx.reserved)
}

/// One segment.
#[tactic(auto, using(crate::proofs::ReserveLemmas::segment_rules))]
fn reserve_segment(
    alloc: Global,
    env: &Environment,
    ctx: &mut Context,
    left: &mut Left,
    segment: &SegmentTree,
) -> Result<(), ResolveFault>
    ensures { OnRead result (λ o. Reserves env.now ctx.old left.old (segment.now ∷ []) (come_to o ctx.new) left.new) }
{
    match type_of(alloc, env, ctx, 0, &segment.ty, left) {
        Err(fault) => Err(fault),
        Ok(ty) => {
            reserve_all(alloc, ctx, &ty, &segment.identifiers)?;
            Ok(())
        }
    }
}

/// Further segments.
#[tactic(auto, using(crate::proofs::ReserveLemmas::further_rules))]
fn reserve_further(
    alloc: Global,
    env: &Environment,
    ctx: &mut Context,
    left: &mut Left,
    segments: &[Next<Comma, SegmentTree>],
) -> Result<(), ResolveFault>
    ensures { OnRead result (λ o. Reserves env.now ctx.old left.old (map tree_of segments.now) (come_to o ctx.new) left.new) }
{
    let mut rest = segments;
    while let Some((next, others)) = rest.split_first() {
        match reserve_segment(alloc, env, ctx, left, &next.tree) {
            Ok(()) => rest = others,
            Err(fault) => return Err(fault),
        }
    }
    Ok(())
}

/// Reserves identifiers for types, segment by segment: each type is read once, where it is written. It may have constants of the
/// article's own level.
///
/// # Errors
/// The refusal of the first type that isn't read, where the article has too few nodes left `TooLarge` at its first token, or
/// `Memory`. Nothing is said of the context and of what is left then.
#[tactic(auto, using(crate::proofs::ReserveLemmas::joined_rules))]
pub fn reserve(
    alloc: Global,
    env: &Environment,
    ctx: &mut Context,
    left: &mut Left,
    segments: &Separated<SegmentTree>,
) -> Result<(), ResolveFault>
    ensures { OnRead result (λ o. Reserves env.now ctx.old left.old (members segments.now) (come_to o ctx.new) left.new) }
{
    match reserve_segment(alloc, env, ctx, left, &segments.first) {
        Ok(()) => reserve_further(alloc, env, ctx, left, segments.more.items.as_slice()),
        Err(fault) => Err(fault),
    }
}
