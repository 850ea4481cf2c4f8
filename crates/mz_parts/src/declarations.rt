//! Declared variables, where each written type is an expression of its own.
ghost use Rattle.std.specs.Prelude.{◌≡◌, ◌++◌, ◌∷◌, [], map, IfOk, OnOk};
ghost use Rattle.mz_names.specs.Closing.{with_variables};
ghost use Rattle.mz_choice.specs.Fresh.{Grown};
ghost use Rattle.mz_tree.specs.Views.{declared_of};
ghost use Rattle.mz_formulas.specs.Declarations.{variable_of, reserved_variable, reserved_each, declaring_at, declared_tree};
ghost use Rattle.mz_resolve.specs.Answers.{OnRead};
ghost use Rattle.mz_parts.specs.Declarations.{Declares, DeclaresAll, DeclarationsRead, reached};

use crate::types::type_at;
use mz_context::context::Context;
use mz_core::outcome::Left;
use mz_core::soft_type::SoftType;
use mz_environment::environment::Environment;
use mz_formulas::declared::put_each;
use mz_names::names::reserved_type;
use mz_names::refusal::Refusal;
use mz_names::variable::{Variable, Variables};
use mz_resolve::resolve_fault::ResolveFault;
use mz_tree::chain::Next;
use mz_tree::expressions::DeclarationsTree;
use mz_tree::nodes::{DeclarationsNode, DeclaredNode};
use mz_tree::word::{Comma, Word};
use std::alloc::{AllocError, Global};

/// The variable of an identifier that has the type.
pub fn variable_of(alloc: Global, ty: &SoftType, w: &Word) -> Result<Variable, AllocError>
    ensures { IfOk result (λ v. v ≡ variable_of ty.now w.now) }
{
    let name = w.spelling.copy(alloc)?;
    let ty = ty.copy(alloc)?;
    Ok(Variable { name, ty })
}

/// The variable of an identifier that no type follows: it has the type with which it was reserved. `UnknownVariable` at it
/// where it wasn't.
pub fn reserved_variable(
    alloc: Global,
    least: u32,
    ctx: &Context,
    w: &Word,
) -> Result<Result<Variable, Refusal>, AllocError>
    ensures { IfOk result (λ o. o ≡ reserved_variable least ctx.now w.now) }
{
    match reserved_type(least, ctx, w.spelling.as_slice()) {
        None => Ok(Err(Refusal::UnknownVariable(w.place))),
        Some(ty) => {
            let v = variable_of(alloc, ty, w)?;
            Ok(Ok(v))
        }
    }
}

/// The variables of the identifiers, each of the type.
fn variables_of(alloc: Global, ty: &SoftType, ws: &[Word]) -> Result<Variables, AllocError>
    ensures { IfOk result (λ vs. vs ≡ map (variable_of ty.now) ws.now) }
{
    let mut out = Variables::new(alloc);
    for w in ws {
        out.push(variable_of(alloc, ty, w)?)?;
    }
    Ok(out)
}

/// The variables of the identifiers, each of the type with which it was reserved.
#[tactic(auto, using(mz_formulas::proofs::DeclaredLemmas::reserved_rules))]
fn reserved_each(
    alloc: Global,
    least: u32,
    ctx: &Context,
    ws: &[Word],
) -> Result<Result<Variables, Refusal>, AllocError>
    ensures { IfOk result (λ o. o ≡ reserved_each least ctx.now ws.now) }
{
    let mut out = Variables::new(alloc);
    let mut rest = ws;
    while let Some((w, others)) = rest.split_first() {
        match reserved_variable(alloc, least, ctx, w)? {
            Err(r) => return Ok(Err(r)),
            Ok(v) => out.push(v)?,
        }
        rest = others;
    }
    Ok(Ok(out))
}

/// The variables of an identifier and of all that wait, which have the type; then none waits.
fn typed(
    alloc: Global,
    ty: &SoftType,
    w: &Word,
    waiting: &mut Vec<Word>,
) -> Result<Variables, AllocError>
    ensures variables { IfOk result (λ vs. vs ≡ map (variable_of ty.now) (waiting.old.items ++ w.now ∷ [])) }
    ensures waiting { OnOk result (waiting.new.items ≡ []) }
{
    waiting.push(w.copy(alloc)?)?;
    let vs = variables_of(alloc, ty, waiting.as_slice())?;
    waiting.clear();
    Ok(vs)
}

/// One declared identifier: without a type it waits, and no variable has its type yet; a type is read once, and then the
/// identifier and all that wait are variables of it. The context is as before.
///
/// Refusals: those of the type.
#[tactic(auto, using(crate::proofs::DeclarationLemmas::declare_rules))]
pub fn declare(
    alloc: Global,
    env: &Environment,
    ctx: &mut Context,
    least: u32,
    node: &DeclaredNode,
    waiting: &mut Vec<Word>,
    left: &mut Left,
) -> Result<Variables, ResolveFault>
    ensures declares { OnRead result (λ o. Declares env.now ctx.old least waiting.old.items left.old (declared_of node.now) o waiting.new.items left.new) }
    ensures same { ctx.new ≡ ctx.old }
{
    match node {
        DeclaredNode::Plain(w) => {
            waiting.push(w.copy(alloc)?)?;
            Ok(Variables::new(alloc))
        }
        DeclaredNode::Typed(w, _, ty) => match type_at(alloc, env, ctx, least, ty, left) {
            Ok(t) => {
                let vs = typed(alloc, &t, w, waiting)?;
                Ok(vs)
            }
            Err(f) => Err(f),
        },
    }
}

/// Puts the variables into force, and behind those that are declared.
#[tactic(auto, using(mz_formulas::proofs::DeclaredLemmas::grown_rules))]
fn put_more(
    alloc: Global,
    ctx: &mut Context,
    vs: &mut Variables,
    more: Variables,
) -> Result<(), AllocError>
    ensures context { OnOk result (ctx.new ≡ with_variables ctx.old more) }
    ensures variables { OnOk result (vs.new ≡ vs.old ++ more) }
    ensures grown { Grown ctx.old ctx.new }
{
    put_each(alloc, ctx, more.items.as_slice())?;
    let mut more = more;
    vs.items.append(&mut more.items)?;
    Ok(())
}

/// One declared identifier, and the variables that have their type then put into force.
#[tactic(auto, using(crate::proofs::DeclarationLemmas::more_rules))]
fn declare_more(
    alloc: Global,
    env: &Environment,
    ctx: &mut Context,
    least: u32,
    node: &DeclaredNode,
    vs: &mut Variables,
    waiting: &mut Vec<Word>,
    left: &mut Left,
) -> Result<(), ResolveFault>
    ensures declares { OnRead result (λ o. DeclaresAll env.now least (declaring_at ctx.old vs.old waiting.old.items) left.old (declared_of node.now ∷ []) (reached o (declaring_at ctx.new vs.new waiting.new.items)) left.new) }
    ensures grown { Grown ctx.old ctx.new }
{
    match declare(alloc, env, ctx, least, node, waiting, left) {
        Ok(more) => {
            put_more(alloc, ctx, vs, more)?;
            Ok(())
        }
        Err(f) => Err(f),
    }
}

/// Declared identifiers one after another.
#[tactic(auto, using(crate::proofs::DeclarationLemmas::each_rules))]
fn declare_each(
    alloc: Global,
    env: &Environment,
    ctx: &mut Context,
    least: u32,
    nodes: &[Next<Comma, DeclaredNode>],
    vs: &mut Variables,
    waiting: &mut Vec<Word>,
    left: &mut Left,
) -> Result<(), ResolveFault>
    ensures declares { OnRead result (λ o. DeclaresAll env.now least (declaring_at ctx.old vs.old waiting.old.items) left.old (map declared_tree nodes.now) (reached o (declaring_at ctx.new vs.new waiting.new.items)) left.new) }
    ensures grown { Grown ctx.old ctx.new }
{
    let mut rest = nodes;
    while let Some((next, others)) = rest.split_first() {
        match declare_more(alloc, env, ctx, least, &next.tree, vs, waiting, left) {
            Ok(()) => rest = others,
            Err(f) => return Err(f),
        }
    }
    Ok(())
}

/// All declared identifiers.
#[tactic(auto, using(crate::proofs::DeclarationLemmas::all_rules))]
fn declare_all(
    alloc: Global,
    env: &Environment,
    ctx: &mut Context,
    least: u32,
    node: &DeclarationsNode,
    vs: &mut Variables,
    waiting: &mut Vec<Word>,
    left: &mut Left,
) -> Result<(), ResolveFault>
    ensures declares { OnRead result (λ o. DeclaresAll env.now least (declaring_at ctx.old vs.old waiting.old.items) left.old (declared_of node.now.first ∷ map declared_tree node.now.more.items) (reached o (declaring_at ctx.new vs.new waiting.new.items)) left.new) }
    ensures grown { Grown ctx.old ctx.new }
{
    match declare_more(alloc, env, ctx, least, &node.first, vs, waiting, left) {
        Ok(()) => declare_each(
            alloc,
            env,
            ctx,
            least,
            node.more.as_slice(),
            vs,
            waiting,
            left,
        ),
        Err(f) => Err(f),
    }
}

/// The variables that the declarations declare, which are put into force. Each written type counts once.
///
/// Refusals: those of the types, from left to right; then `UnknownVariable` at the first identifier behind the last type
/// that isn't reserved.
#[tactic(auto, using(crate::proofs::DeclarationLemmas::read_rules))]
pub fn read_declarations(
    alloc: Global,
    env: &Environment,
    ctx: &mut Context,
    least: u32,
    tree: &DeclarationsTree,
    left: &mut Left,
) -> Result<Variables, ResolveFault>
    ensures reads { OnRead result (λ o. DeclarationsRead env.now ctx.old least left.old tree.now o left.new) }
    ensures context { IfOk result (λ vs. ctx.new ≡ with_variables ctx.old vs) }
    ensures grown { Grown ctx.old ctx.new }
{
    let mut vs = Variables::new(alloc);
    let mut waiting = Vec::new(alloc);
    match declare_all(
        alloc,
        env,
        ctx,
        least,
        tree.node(),
        &mut vs,
        &mut waiting,
        left,
    ) {
        Ok(()) => {}
        Err(f) => return Err(f),
    }
    match reserved_each(alloc, least, ctx, waiting.as_slice())? {
        Err(r) => Err(ResolveFault::Refused(r)),
        Ok(more) => {
            put_more(alloc, ctx, &mut vs, more)?;
            Ok(vs)
        }
    }
}
