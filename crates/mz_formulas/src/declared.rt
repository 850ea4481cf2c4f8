//! What declared variables are read to.
ghost use Rattle.std.specs.Prelude.{◌≡◌, ◌++◌, ◌∷◌, [], map, IfOk, OnOk, Option};
ghost use Rattle.mz_context.specs.Changes.{with_constant};
ghost use Rattle.mz_names.specs.Closing.{constant_of, with_variables};
ghost use Rattle.mz_choice.specs.Fresh.{Grown};
ghost use Rattle.mz_tree.specs.Views.{declared_of};
ghost use Rattle.mz_formulas.specs.Declarations.{variable_of, Declares, DeclaresAll, reserved_variable, reserved_each, ReadsDeclared, declaring_at, undeclared, outcome, declared_tree};

use mz_context::context::Context;
use mz_core::soft_type::SoftType;
use mz_environment::environment::Environment;
use mz_names::names::reserved_type;
use mz_names::quantifiers::constant_of;
use mz_names::refusal::Refusal;
use mz_names::variable::{Variable, Variables};
use mz_terms::types::read_type;
use mz_tree::chain::Next;
use mz_tree::nodes::{DeclarationsNode, DeclaredNode};
use mz_tree::word::{Comma, Word};
use std::alloc::{AllocError, Global};

fn variable_of(alloc: Global, ty: &SoftType, w: &Word) -> Result<Variable, AllocError>
    ensures { IfOk result (λ v. v ≡ variable_of ty.now w.now) }
{
    let name = w.spelling.copy(alloc)?;
    let ty = ty.copy(alloc)?;
    Ok(Variable { name, ty })
}

/// The variables of the identifiers, each of the type.
fn variables_of(alloc: Global, ty: &SoftType, ws: &[Word]) -> Result<Variables, AllocError>
    ensures { IfOk result (λ vs. vs ≡ map (variable_of ty.now) ws.now) }
{
    let mut out = Variables::new(alloc);
    for w in ws {
        out.push(variable_of(alloc, ty, w)?)?;
    }
    Ok(out)
}

fn reserved_variable(
    alloc: Global,
    least: u32,
    ctx: &Context,
    w: &Word,
) -> Result<Result<Variable, Refusal>, AllocError>
    ensures { IfOk result (λ o. o ≡ reserved_variable least ctx.now w.now) }
{
    match reserved_type(least, ctx, w.spelling.as_slice()) {
        None => Ok(Err(Refusal::UnknownVariable(w.place))),
        Some(ty) => {
            let v = variable_of(alloc, ty, w)?;
            Ok(Ok(v))
        }
    }
}

/// The variables of the identifiers, each of the type with which it was reserved.
#[tactic(auto, using(crate::proofs::DeclaredLemmas::reserved_rules))]
fn reserved_each(
    alloc: Global,
    least: u32,
    ctx: &Context,
    ws: &[Word],
) -> Result<Result<Variables, Refusal>, AllocError>
    ensures { IfOk result (λ o. o ≡ reserved_each least ctx.now ws.now) }
{
    let mut out = Variables::new(alloc);
    let mut rest = ws;
    while let Some((w, others)) = rest.split_first() {
        match reserved_variable(alloc, least, ctx, w)? {
            Err(r) => return Ok(Err(r)),
            Ok(v) => out.push(v)?,
        }
        rest = others;
    }
    Ok(Ok(out))
}

/// Puts a variable into force.
#[tactic(auto, using(crate::proofs::DeclaredLemmas::grown_rules))]
fn put_one(alloc: Global, ctx: &mut Context, v: &Variable) -> Result<(), AllocError>
    ensures context { OnOk result (ctx.new ≡ with_constant ctx.old (constant_of v.now)) }
    ensures grown { Grown ctx.old ctx.new }
{
    let k = constant_of(alloc, v)?;
    let _number = ctx.add(k)?;
    Ok(())
}

/// Puts the variables into force, one after another.
#[tactic(auto, using(crate::proofs::DeclaredLemmas::put_rules))]
pub fn put_each(alloc: Global, ctx: &mut Context, vs: &[Variable]) -> Result<(), AllocError>
    ensures context { OnOk result (ctx.new ≡ with_variables ctx.old vs.now) }
    ensures grown { Grown ctx.old ctx.new }
{
    let mut rest = vs;
    while let Some((v, others)) = rest.split_first() {
        put_one(alloc, ctx, v)?;
        rest = others;
    }
    Ok(())
}

/// Puts the variables into force, and behind those that are declared.
#[tactic(auto, using(crate::proofs::DeclaredLemmas::grown_rules))]
fn put_more(
    alloc: Global,
    ctx: &mut Context,
    vs: &mut Variables,
    more: Variables,
) -> Result<(), AllocError>
    ensures context { OnOk result (ctx.new ≡ with_variables ctx.old more) }
    ensures variables { OnOk result (vs.new ≡ vs.old ++ more) }
    ensures grown { Grown ctx.old ctx.new }
{
    put_each(alloc, ctx, more.items.as_slice())?;
    let mut more = more;
    vs.items.append(&mut more.items)?;
    Ok(())
}

/// One declared identifier: without a type it waits; with one it has this, and all that wait.
#[tactic(auto, using(crate::proofs::DeclaredLemmas::declare_rules))]
fn declare(
    alloc: Global,
    env: &Environment,
    ctx: &mut Context,
    least: u32,
    node: &DeclaredNode,
    vs: &mut Variables,
    waiting: &mut Vec<Word>,
) -> Result<Option<Refusal>, AllocError>
    ensures declares { IfOk result (λ o. Declares env.now least (declaring_at ctx.old vs.old waiting.old.items) (declared_of node.now) (outcome o (declaring_at ctx.new vs.new waiting.new.items))) }
    ensures grown { Grown ctx.old ctx.new }
{
    match node {
        DeclaredNode::Plain(w) => {
            waiting.push(w.copy(alloc)?)?;
            Ok(None)
        }
        DeclaredNode::Typed(w, _, ty) => match read_type(alloc, env, ctx, least, ty)? {
            Err(r) => Ok(Some(r)),
            Ok(t) => {
                waiting.push(w.copy(alloc)?)?;
                let more = variables_of(alloc, &t, waiting.as_slice())?;
                put_more(alloc, ctx, vs, more)?;
                waiting.clear();
                Ok(None)
            }
        },
    }
}

/// Declared identifiers one after another.
#[tactic(auto, using(crate::proofs::DeclaredLemmas::all_rules))]
fn declare_each(
    alloc: Global,
    env: &Environment,
    ctx: &mut Context,
    least: u32,
    nodes: &[Next<Comma, DeclaredNode>],
    vs: &mut Variables,
    waiting: &mut Vec<Word>,
) -> Result<Option<Refusal>, AllocError>
    ensures declares { IfOk result (λ o. DeclaresAll env.now least (declaring_at ctx.old vs.old waiting.old.items) (map declared_tree nodes.now) (outcome o (declaring_at ctx.new vs.new waiting.new.items))) }
    ensures grown { Grown ctx.old ctx.new }
{
    let mut rest = nodes;
    while let Some((next, others)) = rest.split_first() {
        match declare(alloc, env, ctx, least, &next.tree, vs, waiting)? {
            Some(r) => return Ok(Some(r)),
            None => rest = others,
        }
    }
    Ok(None)
}

/// All declared identifiers.
#[tactic(auto, using(crate::proofs::DeclaredLemmas::whole_rules))]
fn declare_all(
    alloc: Global,
    env: &Environment,
    ctx: &mut Context,
    least: u32,
    node: &DeclarationsNode,
    vs: &mut Variables,
    waiting: &mut Vec<Word>,
) -> Result<Option<Refusal>, AllocError>
    ensures declares { IfOk result (λ o. DeclaresAll env.now least (declaring_at ctx.old vs.old waiting.old.items) (declared_of node.now.first ∷ map declared_tree node.now.more.items) (outcome o (declaring_at ctx.new vs.new waiting.new.items))) }
    ensures grown { Grown ctx.old ctx.new }
{
    match declare(alloc, env, ctx, least, &node.first, vs, waiting)? {
        Some(r) => Ok(Some(r)),
        None => {
            let o = declare_each(alloc, env, ctx, least, node.more.as_slice(), vs, waiting)?;
            Ok(o)
        }
    }
}

/// The variables that are declared, which are put into force.
///
/// Refusals: those of the types, from left to right; then `UnknownVariable` at the first identifier behind the last type
/// that isn't reserved.
#[tactic(auto, using(crate::proofs::DeclaredLemmas::read_rules))]
pub fn read_declared(
    alloc: Global,
    env: &Environment,
    ctx: &mut Context,
    least: u32,
    node: &DeclarationsNode,
) -> Result<Result<Variables, Refusal>, AllocError>
    ensures variables { IfOk result (λ o. ReadsDeclared env.now least ctx.old (declared_of node.now.first ∷ map declared_tree node.now.more.items) o) }
    ensures context { IfOk result (λ o. IfOk o (λ vs. ctx.new ≡ with_variables ctx.old vs)) }
    ensures grown { Grown ctx.old ctx.new }
{
    let mut vs = Variables::new(alloc);
    let mut waiting = Vec::new(alloc);
    if let Some(r) = declare_all(alloc, env, ctx, least, node, &mut vs, &mut waiting)? {
        return Ok(Err(r));
    }
    match reserved_each(alloc, least, ctx, waiting.as_slice())? {
        Err(r) => Ok(Err(r)),
        Ok(more) => {
            put_more(alloc, ctx, &mut vs, more)?;
            Ok(Ok(vs))
        }
    }
}
