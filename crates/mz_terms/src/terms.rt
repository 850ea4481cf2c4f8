//! What terms are read to, or the first refusal in the order of the reading.
ghost use Rattle.std.specs.Prelude.{◌≡◌, ℕ, [], ◌∷◌, map, Option, Some, IfOk};
ghost use Rattle.mz_base.specs.declared.place.Place.{Place};
ghost use Rattle.mz_tree.specs.Trees.{FunctorPiece};
ghost use Rattle.mz_tree.specs.Places.{first_place};
ghost use Rattle.mz_tree.specs.Spell.{spell_term};
ghost use Rattle.mz_tree.specs.Views.{term_of, piece_of, prefix_of, base_of, terms_of};
ghost use Rattle.mz_terms.specs.Terms.{ReadsTerm, Runs, RunsStep, TakesPiece, AppliesPiece, ReadsOperand, ReadsBase, ReadsArguments, ReadsAll};

use crate::bases::{close_base, put_prefixes};
use crate::parts::parts_of;
use crate::values::{Values, first_in, one_of, put_term, put_terms, terms_in};
use mz_applied::application::application;
use mz_applied::applied::applied_term;
use mz_base::place::Place;
use mz_context::context::Context;
use mz_environment::environment::Environment;
use mz_grouping::grouping::{Step, grouped, has_neighbours};
use mz_logic::kind::Kind;
use mz_logic::term::{Term, Terms};
use mz_names::refusal::Refusal;
use mz_tree::nodes::{BaseNode, OperandNode, PieceNode, TermNode, TermsNode};
use mz_tree::word::Word;
use std::alloc::{AllocError, Global};

/// A functor symbol of a run, applied to what was read last on its sides.
fn apply_functor(
    alloc: Global,
    env: &Environment,
    ctx: &Context,
    left: bool,
    right: bool,
    w: &Word,
    values: Values,
) -> Result<Result<Values, Refusal>, AllocError>
    ensures { IfOk result (λ o. (first : Place) (priority : ℕ) → AppliesPiece env.now ctx.now first left right (FunctorPiece w.now priority) values o) }
{
    let mut rest = values;
    let behind = rest.pop_if(right);
    let before = rest.pop_if(left);
    let first = first_in(w.place, &before);
    let ls = terms_in(alloc, before);
    let rs = terms_in(alloc, behind);
    let a = application(alloc, Kind::Functor, &w.spelling, ls, rs)?;
    let t = applied_term(alloc, env, ctx, w.place, first, &a)?;
    let o = put_term(alloc, first, rest, t)?;
    Ok(o)
}

#[tactic(auto, using(crate::proofs::TermLemmas::apply_rules))]
fn apply_piece(
    alloc: Global,
    env: &Environment,
    ctx: &Context,
    first: Place,
    left: bool,
    right: bool,
    node: &PieceNode,
    values: Values,
) -> Result<Result<Values, Refusal>, AllocError>
    ensures { IfOk result (λ o. AppliesPiece env.now ctx.now first left right (piece_of node.now) values o) }
{
    match node {
        PieceNode::Functor(w, _) => {
            let o = apply_functor(alloc, env, ctx, left, right, w, values)?;
            Ok(o)
        }
        PieceNode::Operand(_) => Ok(Err(Refusal::NoNotation(first))),
    }
}

/// The term that the tree is read to.
#[cycle(reading)]
#[tactic(auto, using(crate::proofs::TermLemmas::term_rules))]
pub fn read_term(
    alloc: Global,
    env: &Environment,
    ctx: &Context,
    least: u32,
    node: &TermNode,
) -> Result<Result<Term, Refusal>, AllocError>
    ensures { IfOk result (λ o. ReadsTerm env.now ctx.now least (term_of node.now) o) }
{
    let first = node.first_place();
    let parts = parts_of(alloc, env, node)?;
    if has_neighbours(parts.as_slice()) {
        return Ok(Err(Refusal::NoNotation(first)));
    }
    let steps = grouped(alloc, parts.as_slice())?;
    match read_run(alloc, env, ctx, least, first, node, steps.as_slice())? {
        Err(r) => Ok(Err(r)),
        Ok(values) => {
            let mut rest = values;
            let ts = terms_in(alloc, rest.pop_if(true));
            let o = one_of(first, ts);
            Ok(o)
        }
    }
}

#[cycle(reading)]
#[tactic(auto, using(crate::proofs::TermLemmas::run_rules))]
fn read_run(
    alloc: Global,
    env: &Environment,
    ctx: &Context,
    least: u32,
    first: Place,
    node: &TermNode,
    steps: &[Step],
) -> Result<Result<Values, Refusal>, AllocError>
    ensures { IfOk result (λ o. Runs env.now ctx.now least first (piece_of node.now.first ∷ map piece_of node.now.more.items) steps.now [] o) }
{
    let mut values = Values::new(alloc);
    let mut rest = steps;
    while let Some((step, others)) = rest.split_first() {
        match read_step(alloc, env, ctx, least, first, node, *step, values)? {
            Err(r) => return Ok(Err(r)),
            Ok(behind) => {
                values = behind;
                rest = others;
            }
        }
    }
    Ok(Ok(values))
}

#[cycle(reading)]
#[tactic(auto, using(crate::proofs::TermLemmas::step_rules))]
fn read_step(
    alloc: Global,
    env: &Environment,
    ctx: &Context,
    least: u32,
    first: Place,
    node: &TermNode,
    step: Step,
    values: Values,
) -> Result<Result<Values, Refusal>, AllocError>
    ensures { IfOk result (λ o. RunsStep env.now ctx.now least first (piece_of node.now.first ∷ map piece_of node.now.more.items) step values o) }
{
    match step {
        Step::Take(k) => {
            if k == 0 {
                let o = take_piece(alloc, env, ctx, least, first, &node.first, values)?;
                return Ok(o);
            }
            if k - 1 >= node.more.len() {
                return Ok(Err(Refusal::NoNotation(first)));
            }
            let o = take_piece(alloc, env, ctx, least, first, &node.more[k - 1], values)?;
            Ok(o)
        }
        Step::Apply(k, left, right) => {
            if k == 0 {
                let o = apply_piece(alloc, env, ctx, first, left, right, &node.first, values)?;
                return Ok(o);
            }
            if k - 1 >= node.more.len() {
                return Ok(Err(Refusal::NoNotation(first)));
            }
            let o = apply_piece(
                alloc,
                env,
                ctx,
                first,
                left,
                right,
                &node.more[k - 1],
                values,
            )?;
            Ok(o)
        }
    }
}

#[cycle(reading)]
#[tactic(auto, using(crate::proofs::TermLemmas::piece_rules))]
fn take_piece(
    alloc: Global,
    env: &Environment,
    ctx: &Context,
    least: u32,
    first: Place,
    node: &PieceNode,
    values: Values,
) -> Result<Result<Values, Refusal>, AllocError>
    ensures { IfOk result (λ o. TakesPiece env.now ctx.now least first (piece_of node.now) values o) }
{
    match node {
        PieceNode::Functor(_, _) => Ok(Err(Refusal::NoNotation(first))),
        PieceNode::Operand(a) => {
            let ts = read_operand(alloc, env, ctx, least, a)?;
            let o = put_terms(node.first_place(), values, ts)?;
            Ok(o)
        }
    }
}

#[cycle(reading)]
#[tactic(auto, using(crate::proofs::TermLemmas::operand_rules))]
fn read_operand(
    alloc: Global,
    env: &Environment,
    ctx: &Context,
    least: u32,
    node: &OperandNode,
) -> Result<Result<Terms, Refusal>, AllocError>
    ensures { IfOk result (λ o. ReadsOperand env.now ctx.now least (map prefix_of node.now.prefixes.items) (base_of node.now.base.value) o) }
{
    match read_base(alloc, env, ctx, least, &node.base)? {
        Err(r) => Ok(Err(r)),
        Ok(ts) => {
            let o = put_prefixes(alloc, env, ctx, node.prefixes.as_slice(), ts)?;
            Ok(o)
        }
    }
}

#[cycle(reading)]
#[tactic(auto, using(crate::proofs::TermLemmas::base_rules))]
fn read_base(
    alloc: Global,
    env: &Environment,
    ctx: &Context,
    least: u32,
    node: &BaseNode,
) -> Result<Result<Terms, Refusal>, AllocError>
    ensures { IfOk result (λ o. ReadsBase env.now ctx.now least (base_of node.now) o) }
{
    match read_arguments(alloc, env, ctx, least, node)? {
        Err(r) => Ok(Err(r)),
        Ok(ts) => {
            let o = close_base(alloc, env, ctx, least, node, ts)?;
            Ok(o)
        }
    }
}

#[cycle(reading)]
#[tactic(auto, using(crate::proofs::TermLemmas::argument_rules))]
fn read_arguments(
    alloc: Global,
    env: &Environment,
    ctx: &Context,
    least: u32,
    node: &BaseNode,
) -> Result<Result<Terms, Refusal>, AllocError>
    ensures { IfOk result (λ o. ReadsArguments env.now ctx.now least (base_of node.now) o) }
{
    match node {
        BaseNode::Group(_, a, _) => {
            let o = read_terms(alloc, env, ctx, least, a)?;
            Ok(o)
        }
        BaseNode::CallWith(_, _, a, _) => {
            let o = read_terms(alloc, env, ctx, least, a)?;
            Ok(o)
        }
        BaseNode::Aggregate(_, _, a, _) => {
            let o = read_terms(alloc, env, ctx, least, a)?;
            Ok(o)
        }
        BaseNode::Brackets(_, a, _) => {
            let o = read_terms(alloc, env, ctx, least, a)?;
            Ok(o)
        }
        BaseNode::Braces(_, a, _) => {
            let o = read_terms(alloc, env, ctx, least, a)?;
            Ok(o)
        }
        BaseNode::Squares(_, a, _) => {
            let o = read_terms(alloc, env, ctx, least, a)?;
            Ok(o)
        }
        BaseNode::Identifier(_) => Ok(Ok(Terms::new(alloc))),
        BaseNode::Subject(_) => Ok(Ok(Terms::new(alloc))),
        BaseNode::Argument(_, _) => Ok(Ok(Terms::new(alloc))),
        BaseNode::Call(_, _, _) => Ok(Ok(Terms::new(alloc))),
        BaseNode::Selector(_, _) => Ok(Ok(Terms::new(alloc))),
        BaseNode::SetOf(_, _, _, _, _, _, _, _, _) => Ok(Ok(Terms::new(alloc))),
        BaseNode::Choice(_, _, _) => Ok(Ok(Terms::new(alloc))),
        BaseNode::ChoiceStructure(_, _, _) => Ok(Ok(Terms::new(alloc))),
    }
}

/// The terms that the tree is read to, from left to right.
#[cycle(reading)]
#[tactic(auto, using(crate::proofs::TermLemmas::all_rules))]
pub fn read_terms(
    alloc: Global,
    env: &Environment,
    ctx: &Context,
    least: u32,
    node: &TermsNode,
) -> Result<Result<Terms, Refusal>, AllocError>
    ensures { IfOk result (λ o. ReadsAll env.now ctx.now least (terms_of node.now) o) }
{
    let mut out = Terms::new(alloc);
    match read_term(alloc, env, ctx, least, &node.first)? {
        Err(r) => return Ok(Err(r)),
        Ok(t) => out.push(t)?,
    }
    for next in &node.more {
        match read_term(alloc, env, ctx, least, &next.tree)? {
            Err(r) => return Ok(Err(r)),
            Ok(t) => out.push(t)?,
        }
    }
    Ok(Ok(out))
}
