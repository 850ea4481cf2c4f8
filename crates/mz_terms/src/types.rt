//! What types are read to.
ghost use Rattle.std.specs.Prelude.{◌≡◌, [], map, IfOk};
ghost use Rattle.mz_tree.specs.Trees.{adjectives_of};
ghost use Rattle.mz_tree.specs.Views.{adjective_of, type_of};
ghost use Rattle.mz_choice.specs.Cover.{bare};
ghost use Rattle.mz_terms.specs.Types.{adjectives_in, radix_in, radix_kind, ReadsRadixTerms, ReadsRadix, with_adjectives, ReadsWritten, ReadsParts, ReadsType, ReadsRegistered};

use crate::adjectives::read_adjectives;
use crate::terms::read_terms;
use mz_applied::application::application;
use mz_applied::applied::applied_type;
use mz_applied::within::within_type;
use mz_choice::choice::Wanted;
use mz_choice::fresh::{fresh, keep};
use mz_choice::resolve::is_covered;
use mz_context::context::Context;
use mz_core::adjectives::Adjectives;
use mz_core::soft_type::SoftType;
use mz_environment::environment::Environment;
use mz_logic::kind::Kind;
use mz_logic::term::{Term, Terms};
use mz_names::refusal::Refusal;
use mz_tree::nodes::{AdjectiveNode, TypeNode};
use mz_tree::word::Word;
use std::alloc::{AllocError, Global};

#[tactic(auto, using(mz_tree::proofs::Views::type_rules))]
fn adjectives_in(node: &TypeNode) -> &[AdjectiveNode]
    ensures { adjectives_of (map adjective_of result.now) ≡ adjectives_in (type_of node.now) }
{
    match node {
        TypeNode::Mode(xs, _) => xs.as_slice(),
        TypeNode::ModeOf(xs, _, _, _) => xs.as_slice(),
        TypeNode::Structure(xs, _) => xs.as_slice(),
        TypeNode::StructureOver(xs, _, _, _) => xs.as_slice(),
    }
}

#[tactic(auto, using(mz_tree::proofs::Views::type_rules))]
fn radix_in(node: &TypeNode) -> &Word
    ensures { result.now ≡ radix_in (type_of node.now) }
{
    match node {
        TypeNode::Mode(_, w) => w,
        TypeNode::ModeOf(_, w, _, _) => w,
        TypeNode::Structure(_, w) => w,
        TypeNode::StructureOver(_, w, _, _) => w,
    }
}

#[tactic(auto, using(mz_tree::proofs::Views::type_rules))]
fn radix_kind(node: &TypeNode) -> Kind
    ensures { result ≡ radix_kind (type_of node.now) }
{
    match node {
        TypeNode::Mode(_, _) => Kind::Mode,
        TypeNode::ModeOf(_, _, _, _) => Kind::Mode,
        TypeNode::Structure(_, _) => Kind::Structure,
        TypeNode::StructureOver(_, _, _, _) => Kind::Structure,
    }
}

#[tactic(auto, using(crate::proofs::TypeLemmas::term_rules))]
fn read_radix_terms(
    alloc: Global,
    env: &Environment,
    ctx: &Context,
    least: u32,
    node: &TypeNode,
) -> Result<Result<Terms, Refusal>, AllocError>
    ensures { IfOk result (λ o. ReadsRadixTerms env.now ctx.now least (type_of node.now) o) }
{
    match node {
        TypeNode::Mode(_, _) => Ok(Ok(Terms::new(alloc))),
        TypeNode::ModeOf(_, _, _, a) => {
            let o = read_terms(alloc, env, ctx, least, a)?;
            Ok(o)
        }
        TypeNode::Structure(_, _) => Ok(Ok(Terms::new(alloc))),
        TypeNode::StructureOver(_, _, _, a) => {
            let o = read_terms(alloc, env, ctx, least, a)?;
            Ok(o)
        }
    }
}

#[tactic(auto, using(crate::proofs::TypeLemmas::radix_rules))]
fn read_radix(
    alloc: Global,
    env: &Environment,
    ctx: &Context,
    least: u32,
    node: &TypeNode,
) -> Result<Result<SoftType, Refusal>, AllocError>
    ensures { IfOk result (λ o. ReadsRadix env.now ctx.now least (type_of node.now) o) }
{
    match read_radix_terms(alloc, env, ctx, least, node)? {
        Err(r) => Ok(Err(r)),
        Ok(ts) => {
            let kind = radix_kind(node);
            let w = radix_in(node);
            let left = Terms::new(alloc);
            let a = application(alloc, kind, &w.spelling, left, ts)?;
            let o = applied_type(alloc, env, ctx, w.place, &a)?;
            Ok(o)
        }
    }
}

fn bare(alloc: Global, ty: &SoftType) -> Result<SoftType, AllocError>
    ensures { IfOk result (λ t. t ≡ bare ty.now) }
{
    let radix = ty.radix.copy(alloc)?;
    Ok(SoftType {
        adjectives: Adjectives::new(alloc),
        radix,
    })
}

/// The written adjectives, each of a fresh constant of the type's radix. The context is as before.
#[tactic(auto, using(crate::proofs::TypeLemmas::written_rules))]
fn read_written(
    alloc: Global,
    env: &Environment,
    ctx: &mut Context,
    least: u32,
    ty: &SoftType,
    nodes: &[AdjectiveNode],
) -> Result<Result<Adjectives, Refusal>, AllocError>
    ensures written { IfOk result (λ o. ReadsWritten env.now ctx.old least ty.now (map adjective_of nodes.now) o) }
    ensures same { ctx.new ≡ ctx.old }
{
    let alone = bare(alloc, ty)?;
    let count = ctx.constants.items.len();
    let n = ctx.add(fresh(alloc, alone))?;
    let wanted = Wanted::AdjectiveOfFresh(n);
    let subject = Term::constant(n);
    match read_adjectives(alloc, env, ctx, least, &wanted, &subject, nodes) {
        Ok(o) => {
            keep(ctx, count);
            Ok(o)
        }
        Err(e) => {
            keep(ctx, count);
            Err(e)
        }
    }
}

fn with_adjectives(xs: Adjectives, ty: SoftType) -> Result<SoftType, AllocError>
    ensures { IfOk result (λ t. t ≡ with_adjectives xs ty) }
{
    let mut adjectives = xs;
    let mut rest = ty.adjectives;
    adjectives.items.append(&mut rest.items)?;
    Ok(SoftType {
        adjectives,
        radix: ty.radix,
    })
}

/// The type's radix, and then its adjectives from left to right. The context is as before.
#[tactic(auto, using(crate::proofs::TypeLemmas::part_rules))]
fn read_parts(
    alloc: Global,
    env: &Environment,
    ctx: &mut Context,
    least: u32,
    node: &TypeNode,
) -> Result<Result<SoftType, Refusal>, AllocError>
    ensures parts { IfOk result (λ o. ReadsParts env.now ctx.old least (type_of node.now) o) }
    ensures same { ctx.new ≡ ctx.old }
{
    match read_radix(alloc, env, ctx, least, node)? {
        Err(r) => Ok(Err(r)),
        Ok(ty) => {
            let nodes = adjectives_in(node);
            match read_written(alloc, env, ctx, least, &ty, nodes)? {
                Err(r) => Ok(Err(r)),
                Ok(xs) => {
                    let t = with_adjectives(xs, ty)?;
                    Ok(Ok(t))
                }
            }
        }
    }
}

/// The type that the tree is read to. The context is as before.
///
/// Refusals: those of its terms, of its radix and of its adjectives; `Unregistered` where its adjectives aren't covered,
/// and then `TooLarge`, both at its first token.
#[tactic(auto, using(crate::proofs::TypeLemmas::type_rules))]
pub fn read_type(
    alloc: Global,
    env: &Environment,
    ctx: &mut Context,
    least: u32,
    node: &TypeNode,
) -> Result<Result<SoftType, Refusal>, AllocError>
    ensures reads { IfOk result (λ o. ReadsType env.now ctx.old least (type_of node.now) o) }
    ensures same { ctx.new ≡ ctx.old }
{
    match read_parts(alloc, env, ctx, least, node)? {
        Err(r) => Ok(Err(r)),
        Ok(t) => {
            let first = node.first_place();
            let covered = is_covered(alloc, env, ctx, &t)?;
            if !covered {
                return Ok(Err(Refusal::Unregistered(first)));
            }
            let o = within_type(first, t);
            Ok(o)
        }
    }
}

/// The type of an existential registration, which needs no cover. The context is as before.
#[tactic(auto, using(crate::proofs::TypeLemmas::registered_rules))]
pub fn read_registered(
    alloc: Global,
    env: &Environment,
    ctx: &mut Context,
    least: u32,
    node: &TypeNode,
) -> Result<Result<SoftType, Refusal>, AllocError>
    ensures reads { IfOk result (λ o. ReadsRegistered env.now ctx.old least (type_of node.now) o) }
    ensures same { ctx.new ≡ ctx.old }
{
    match read_parts(alloc, env, ctx, least, node)? {
        Err(r) => Ok(Err(r)),
        Ok(t) => {
            let first = node.first_place();
            let o = within_type(first, t);
            Ok(o)
        }
    }
}
