//! The terms of `reconsider`, and the further sides of iterative equalities.
ghost use Rattle.std.specs.Prelude.{◌≡◌, ◌++◌, ◌∷◌, [], map, IfOk, OnOk};
ghost use Rattle.mz_choice.specs.Fresh.{Grown};
ghost use Rattle.mz_cited.specs.Cited.{members, tree_of};
ghost use Rattle.mz_tree.specs.Trees.{OperandPiece, IdentifierBase, prefixs_of};
ghost use Rattle.mz_tree.specs.Views.{operand_of};
ghost use Rattle.mz_resolve.specs.Answers.{OnRead};
ghost use Rattle.mz_resolve.specs.Calls.{TermRead};
ghost use Rattle.mz_parts.specs.Propositions.{all_read};
ghost use Rattle.mz_parts.specs.Named.{TermsReadBehind, TermsRead, identifier_term, retyped_term, retyped_name, retyped, RetypedRead, side_of, SidesRead};

use crate::definitions::Definitions;
use crate::named::definition;
use mz_choice::fresh::keep;
use mz_context::context::Context;
use mz_core::outcome::Left;
use mz_core::soft_type::SoftType;
use mz_environment::environment::Environment;
use mz_formulas::declared::put_each;
use mz_logic::term::{Term, Terms};
use mz_names::variable::Variables;
use mz_resolve::calls::{term, type_of};
use mz_resolve::resolve_fault::ResolveFault;
use mz_tree::chain::Next;
use mz_tree::expressions::{TermTree, TypeTree};
use mz_tree::lists::Separated;
use mz_tree::nodes::{BaseNode, OperandNode, PieceNode, TermNode};
use mz_tree::word::{Comma, Word};
use mz_tree_proof::equality_step::EqualityStepTree;
use mz_tree_proof::introduction::RetypedTree;
use std::alloc::{AllocError, Global};

/// The identifier as an operand.
#[tactic(auto, using(crate::proofs::TermLemmas::operand_rules))]
fn identifier_operand(alloc: Global, w: &Word) -> Result<OperandNode, AllocError>
    ensures { IfOk result (λ o. OperandPiece (operand_of o).prefixes (operand_of o).base ≡ OperandPiece (prefixs_of []) (IdentifierBase w.now)) }
{
    let w = w.copy(alloc)?;
    let base = Box::new(alloc, BaseNode::Identifier(w))?;
    Ok(OperandNode {
        prefixes: Vec::new(alloc),
        base,
    })
}

/// The identifier as a term.
#[tactic(auto, using(crate::proofs::TermLemmas::identifier_rules))]
fn identifier_term(alloc: Global, w: &Word) -> Result<TermTree, AllocError>
    ensures { IfOk result (λ t. t ≡ identifier_term w.now) }
{
    let operand = identifier_operand(alloc, w)?;
    Ok(TermTree::from_node(TermNode {
        first: PieceNode::Operand(operand),
        more: Vec::new(alloc),
    }))
}

/// What is retyped: `x` alone is the term `x`.
#[tactic(auto, using(crate::proofs::TermLemmas::retyped_rules))]
fn read_retyped(
    alloc: Global,
    env: &Environment,
    ctx: &Context,
    least: u32,
    x: &RetypedTree,
    left: &mut Left,
) -> Result<Term, ResolveFault>
    ensures { OnRead result (λ o. TermRead env.now ctx.now least left.old (retyped_term x.now) o left.new) }
{
    match x {
        RetypedTree::Itself(w) => {
            let tree = identifier_term(alloc, w)?;
            term(alloc, env, ctx, least, &tree, left)
        }
        RetypedTree::Named(n) => term(alloc, env, ctx, least, &n.term, left),
    }
}

/// Reads one of them, and puts it behind the others.
#[tactic(auto, using(crate::proofs::TermLemmas::one_rules))]
fn read_one(
    alloc: Global,
    env: &Environment,
    ctx: &Context,
    least: u32,
    x: &RetypedTree,
    out: &mut Terms,
    left: &mut Left,
) -> Result<(), ResolveFault>
    ensures { OnRead result (λ o. TermsReadBehind env.now ctx.now least left.old (retyped_term x.now ∷ []) out.old (all_read o out.new) left.new) }
{
    match read_retyped(alloc, env, ctx, least, x, left) {
        Ok(t) => {
            out.push(t)?;
            Ok(())
        }
        Err(f) => Err(f),
    }
}

/// Reads what is retyped, one after another, and puts the terms behind the others.
#[tactic(auto, using(crate::proofs::TermLemmas::each_rules))]
fn read_each(
    alloc: Global,
    env: &Environment,
    ctx: &Context,
    least: u32,
    xs: &[Next<Comma, RetypedTree>],
    out: &mut Terms,
    left: &mut Left,
) -> Result<(), ResolveFault>
    ensures { OnRead result (λ o. TermsReadBehind env.now ctx.now least left.old (map retyped_term (map tree_of xs.now)) out.old (all_read o out.new) left.new) }
{
    let mut rest = xs;
    while let Some((x, others)) = rest.split_first() {
        match read_one(alloc, env, ctx, least, &x.tree, out, left) {
            Ok(()) => rest = others,
            Err(f) => return Err(f),
        }
    }
    Ok(())
}

/// Reads all that is retyped.
#[tactic(auto, using(crate::proofs::TermLemmas::all_rules))]
fn read_all(
    alloc: Global,
    env: &Environment,
    ctx: &Context,
    least: u32,
    xs: &Separated<RetypedTree>,
    out: &mut Terms,
    left: &mut Left,
) -> Result<(), ResolveFault>
    ensures { OnRead result (λ o. TermsReadBehind env.now ctx.now least left.old (map retyped_term (members xs.now)) out.old (all_read o out.new) left.new) }
{
    match read_one(alloc, env, ctx, least, &xs.first, out, left) {
        Ok(()) => read_each(alloc, env, ctx, least, xs.more.items.as_slice(), out, left),
        Err(f) => Err(f),
    }
}

fn retyped_name(x: &RetypedTree) -> &Word
    ensures { result.now ≡ retyped_name x.now }
{
    match x {
        RetypedTree::Itself(w) => w,
        RetypedTree::Named(n) => &n.name,
    }
}

/// The names for the further terms, all of the type.
#[tactic(auto, using(crate::proofs::TermLemmas::name_rules))]
fn retype_each(
    alloc: Global,
    ty: &SoftType,
    xs: &[Next<Comma, RetypedTree>],
    ts: &[Term],
    out: &mut Definitions,
) -> Result<(), AllocError>
    ensures { OnOk result (out.new ≡ out.old ++ retyped ty.now (map tree_of xs.now) ts.now) }
{
    let mut names = xs;
    let mut terms = ts;
    while let Some((t, more)) = terms.split_first() {
        match names.split_first() {
            None => return Ok(()),
            Some((x, others)) => {
                out.push(definition(alloc, retyped_name(&x.tree), ty, t)?)?;
                names = others;
                terms = more;
            }
        }
    }
    Ok(())
}

/// The names for the terms, all of the type.
#[tactic(auto, using(crate::proofs::TermLemmas::retype_rules))]
fn retype(
    alloc: Global,
    ty: &SoftType,
    xs: &Separated<RetypedTree>,
    ts: &[Term],
) -> Result<Definitions, AllocError>
    ensures { IfOk result (λ ds. ds ≡ retyped ty.now (members xs.now) ts.now) }
{
    let mut out = Definitions::new(alloc);
    match ts.split_first() {
        Some((t, more)) => {
            out.push(definition(alloc, retyped_name(&xs.first), ty, t)?)?;
            retype_each(alloc, ty, xs.more.items.as_slice(), more, &mut out)?;
            Ok(out)
        }
        None => Ok(out),
    }
}

/// What `reconsider` retypes: all terms in their order, then the type, which is read once. The context is as before.
///
/// Refusals: those of the terms and of the type.
#[tactic(auto, using(crate::proofs::TermLemmas::reconsider_rules))]
pub fn read_reconsidered(
    alloc: Global,
    env: &Environment,
    ctx: &mut Context,
    least: u32,
    xs: &Separated<RetypedTree>,
    ty: &TypeTree,
    left: &mut Left,
) -> Result<Definitions, ResolveFault>
    ensures reads { OnRead result (λ o. RetypedRead env.now ctx.old least left.old (members xs.now) ty.now o left.new) }
    ensures same { ctx.new ≡ ctx.old }
{
    let mut ts = Terms::new(alloc);
    match read_all(alloc, env, ctx, least, xs, &mut ts, left) {
        Ok(()) => {}
        Err(f) => return Err(f),
    }
    match type_of(alloc, env, ctx, least, ty, left) {
        Ok(t) => {
            let ds = retype(alloc, &t, xs, ts.items.as_slice())?;
            Ok(ds)
        }
        Err(f) => Err(f),
    }
}

/// Reads a further side of an equality, and puts it behind the others.
#[tactic(auto, using(crate::proofs::TermLemmas::one_rules))]
fn read_side(
    alloc: Global,
    env: &Environment,
    ctx: &Context,
    least: u32,
    l: &EqualityStepTree,
    out: &mut Terms,
    left: &mut Left,
) -> Result<(), ResolveFault>
    ensures { OnRead result (λ o. TermsReadBehind env.now ctx.now least left.old (side_of l.now ∷ []) out.old (all_read o out.new) left.new) }
{
    match term(alloc, env, ctx, least, &l.term, left) {
        Ok(t) => {
            out.push(t)?;
            Ok(())
        }
        Err(f) => Err(f),
    }
}

/// Reads further sides one after another.
#[tactic(auto, using(crate::proofs::TermLemmas::side_rules))]
fn read_each_side(
    alloc: Global,
    env: &Environment,
    ctx: &Context,
    least: u32,
    ls: &[EqualityStepTree],
    out: &mut Terms,
    left: &mut Left,
) -> Result<(), ResolveFault>
    ensures { OnRead result (λ o. TermsReadBehind env.now ctx.now least left.old (map side_of ls.now) out.old (all_read o out.new) left.new) }
{
    let mut rest = ls;
    while let Some((l, others)) = rest.split_first() {
        match read_side(alloc, env, ctx, least, l, out, left) {
            Ok(()) => rest = others,
            Err(f) => return Err(f),
        }
    }
    Ok(())
}

/// The further sides, with the variables left in force.
#[tactic(auto, using(crate::proofs::TermLemmas::inside_rules))]
fn read_sides_inside(
    alloc: Global,
    env: &Environment,
    ctx: &mut Context,
    least: u32,
    vs: &Variables,
    ls: &[EqualityStepTree],
    left: &mut Left,
) -> Result<Terms, ResolveFault>
    ensures reads { OnRead result (λ o. SidesRead env.now ctx.old least left.old vs.now ls.now o left.new) }
    ensures grown { Grown ctx.old ctx.new }
{
    put_each(alloc, ctx, vs.items.as_slice())?;
    let mut out = Terms::new(alloc);
    match read_each_side(alloc, env, ctx, least, ls, &mut out, left) {
        Ok(()) => Ok(out),
        Err(f) => Err(f),
    }
}

/// The further sides of an iterative equality, where the free reserved variables of its first equation are constants. The
/// context is as before.
///
/// Refusals: those of the terms.
#[tactic(auto, using(crate::proofs::TermLemmas::outside_rules))]
pub fn read_sides(
    alloc: Global,
    env: &Environment,
    ctx: &mut Context,
    least: u32,
    vs: &Variables,
    ls: &[EqualityStepTree],
    left: &mut Left,
) -> Result<Terms, ResolveFault>
    ensures reads { OnRead result (λ o. SidesRead env.now ctx.old least left.old vs.now ls.now o left.new) }
    ensures same { ctx.new ≡ ctx.old }
{
    let count = ctx.constants.items.len();
    match read_sides_inside(alloc, env, ctx, least, vs, ls, left) {
        Ok(ts) => {
            keep(ctx, count);
            Ok(ts)
        }
        Err(f) => {
            keep(ctx, count);
            Err(f)
        }
    }
}
