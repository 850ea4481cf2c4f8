//! What operands are read to, once their arguments are read.
ghost use Rattle.std.specs.Prelude.{◌≡◌, ℕ, List, [], ◌∷◌, map, reverse, IfOk};
ghost use Rattle.mz_logic.specs.Term.{Term};
ghost use Rattle.mz_names.specs.Names.{variable, argument, known_or};
ghost use Rattle.mz_tree.specs.Views.{base_of, prefix_of};
ghost use Rattle.mz_terms.specs.Values.{as_list};
ghost use Rattle.mz_terms.specs.Bases.{Calls, Applies, Closes, Prefixed};
ghost use Rattle.mz_applied.specs.Application.{application, bracketed};
ghost use Rattle.mz_logic.specs.declared.kind.Kind.TheVariants as kind;
ghost use Rattle.mz_tree.specs.Trees.{SelectorBase};

use crate::values::as_list;
use mz_applied::application::{application, bracketed};
use mz_applied::applied::applied_term;
use mz_applied::private::applied_functor;
use mz_base::place::Place;
use mz_choice::choice::Applied;
use mz_context::context::Context;
use mz_environment::environment::Environment;
use mz_logic::kind::Kind;
use mz_logic::term::{Term, Terms};
use mz_names::names::{argument, variable};
use mz_names::refusal::Refusal;
use mz_tree::nodes::{BaseNode, PrefixNode};
use mz_tree::word::Word;
use std::alloc::{AllocError, Global};

/// What is known at the place, or `UnknownVariable`.
fn known_term(
    alloc: Global,
    place: Place,
    known: Option<Term>,
) -> Result<Result<Terms, Refusal>, AllocError>
    ensures { IfOk result (λ o. o ≡ as_list (known_or place known)) }
{
    match known {
        None => Ok(Err(Refusal::UnknownVariable(place))),
        Some(t) => {
            let o = as_list(alloc, Ok(t))?;
            Ok(o)
        }
    }
}

/// The identifier as a variable.
pub fn identifier(
    alloc: Global,
    ctx: &Context,
    least: u32,
    w: &Word,
) -> Result<Result<Terms, Refusal>, AllocError>
    ensures { IfOk result (λ o. o ≡ as_list (known_or w.now.place (variable least ctx.now w.now.spelling))) }
{
    let known = variable(least, ctx, w.spelling.as_slice())?;
    let o = known_term(alloc, w.place, known)?;
    Ok(o)
}

/// What `it` stands for.
fn subject(alloc: Global, ctx: &Context, place: Place) -> Result<Result<Terms, Refusal>, AllocError>
    ensures { IfOk result (λ o. o ≡ as_list (known_or place ctx.now.it)) }
{
    match &ctx.it {
        None => Ok(Err(Refusal::UnknownVariable(place))),
        Some(t) => {
            let t = t.copy(alloc)?;
            let o = as_list(alloc, Ok(t))?;
            Ok(o)
        }
    }
}

/// What `$1` and so on stand for.
fn numbered(
    alloc: Global,
    ctx: &Context,
    place: Place,
    k: u8,
) -> Result<Result<Terms, Refusal>, AllocError>
    ensures { IfOk result (λ o. o ≡ as_list (known_or place (argument ctx.now k))) }
{
    match argument(ctx, k) {
        None => Ok(Err(Refusal::UnknownVariable(place))),
        Some(t) => {
            let t = t.copy(alloc)?;
            let o = as_list(alloc, Ok(t))?;
            Ok(o)
        }
    }
}

/// An identifier with arguments in parentheses.
#[tactic(auto, using(crate::proofs::BaseLemmas::call_rules))]
fn call(
    alloc: Global,
    env: &Environment,
    ctx: &Context,
    least: u32,
    w: &Word,
    ts: Terms,
) -> Result<Result<Terms, Refusal>, AllocError>
    ensures { IfOk result (λ o. Calls env.now ctx.now least w.now ts o) }
{
    let t = applied_functor(alloc, env, ctx, least, w.place, w.spelling.as_slice(), ts)?;
    let o = as_list(alloc, t)?;
    Ok(o)
}

/// A symbol at a place with its arguments.
#[tactic(auto, using(crate::proofs::BaseLemmas::apply_rules))]
fn apply(
    alloc: Global,
    env: &Environment,
    ctx: &Context,
    place: Place,
    first: Place,
    a: &Applied,
) -> Result<Result<Terms, Refusal>, AllocError>
    ensures { IfOk result (λ o. Applies env.now ctx.now place first a.now o) }
{
    let t = applied_term(alloc, env, ctx, place, first, a)?;
    let o = as_list(alloc, t)?;
    Ok(o)
}

/// The symbol of the kind with arguments behind it.
fn apply_word(
    alloc: Global,
    env: &Environment,
    ctx: &Context,
    kind: Kind,
    first: Place,
    w: &Word,
    ts: Terms,
) -> Result<Result<Terms, Refusal>, AllocError>
    ensures { IfOk result (λ o. Applies env.now ctx.now w.now.place first (application kind w.now.spelling [] ts) o) }
{
    let left = Terms::new(alloc);
    let a = application(alloc, kind, &w.spelling, left, ts)?;
    let o = apply(alloc, env, ctx, w.place, first, &a)?;
    Ok(o)
}

/// Brackets around arguments.
fn apply_brackets(
    alloc: Global,
    env: &Environment,
    ctx: &Context,
    place: Place,
    left: &[u8],
    right: &[u8],
    ts: Terms,
) -> Result<Result<Terms, Refusal>, AllocError>
    ensures { IfOk result (λ o. Applies env.now ctx.now place place (bracketed kind.Functor left.now right.now ts) o) }
{
    let a = bracketed(alloc, Kind::Functor, left, right, ts)?;
    let o = apply(alloc, env, ctx, place, place, &a)?;
    Ok(o)
}

/// `the U` in a field's type.
#[tactic(auto, using(crate::proofs::BaseLemmas::field_rules))]
fn field(
    alloc: Global,
    env: &Environment,
    ctx: &Context,
    place: Place,
    w: &Word,
) -> Result<Result<Terms, Refusal>, AllocError>
    ensures { IfOk result (λ o. (least : ℕ) (ts : List Term) → Closes env.now ctx.now least (SelectorBase place w.now) ts o) }
{
    match &ctx.subject {
        None => Ok(Err(Refusal::UnknownVariable(place))),
        Some(t) => {
            let t = t.copy(alloc)?;
            let mut ts = Terms::new(alloc);
            ts.push(t)?;
            let o = apply_word(alloc, env, ctx, Kind::Selector, place, w, ts)?;
            Ok(o)
        }
    }
}

/// An operand without its prefixes, whose arguments are read to these terms.
#[tactic(auto, using(crate::proofs::BaseLemmas::close_rules))]
pub fn close_base(
    alloc: Global,
    env: &Environment,
    ctx: &Context,
    least: u32,
    node: &BaseNode,
    ts: Terms,
) -> Result<Result<Terms, Refusal>, AllocError>
    ensures { IfOk result (λ o. Closes env.now ctx.now least (base_of node.now) ts o) }
{
    match node {
        BaseNode::Identifier(w) => Ok(identifier(alloc, ctx, least, w)?),
        BaseNode::Subject(p) => Ok(subject(alloc, ctx, *p)?),
        BaseNode::Argument(p, k) => Ok(numbered(alloc, ctx, *p, *k)?),
        BaseNode::Group(_, _, _) => Ok(Ok(ts)),
        BaseNode::Call(w, _, _) => {
            let o = call(alloc, env, ctx, least, w, ts)?;
            Ok(o)
        }
        BaseNode::CallWith(w, _, _, _) => {
            let o = call(alloc, env, ctx, least, w, ts)?;
            Ok(o)
        }
        BaseNode::Selector(p, w) => {
            let o = field(alloc, env, ctx, *p, w)?;
            Ok(o)
        }
        BaseNode::Aggregate(w, _, _, _) => {
            let o = apply_word(alloc, env, ctx, Kind::Aggregate, w.place, w, ts)?;
            Ok(o)
        }
        BaseNode::Brackets(l, _, r) => {
            let left = l.spelling.as_slice();
            let right = r.spelling.as_slice();
            let o = apply_brackets(alloc, env, ctx, l.place, left, right, ts)?;
            Ok(o)
        }
        BaseNode::Braces(p, _, _) => {
            let o = apply_brackets(alloc, env, ctx, *p, b"{", b"}", ts)?;
            Ok(o)
        }
        BaseNode::Squares(p, _, _) => {
            let o = apply_brackets(alloc, env, ctx, *p, b"[", b"]", ts)?;
            Ok(o)
        }
        BaseNode::SetOf(p, _, _, _, _, _, _, _, _) => Ok(Err(Refusal::UnknownSymbol(*p))),
        BaseNode::Choice(p, _, _) => Ok(Err(Refusal::UnknownSymbol(*p))),
        BaseNode::ChoiceStructure(p, _, _) => Ok(Err(Refusal::UnknownSymbol(*p))),
    }
}

/// The prefixes, the last one first, of what was read to these terms.
#[tactic(auto, using(crate::proofs::PrefixLemmas::prefix_rules))]
pub fn put_prefixes(
    alloc: Global,
    env: &Environment,
    ctx: &Context,
    prefixes: &[PrefixNode],
    ts: Terms,
) -> Result<Result<Terms, Refusal>, AllocError>
    ensures { IfOk result (λ o. Prefixed env.now ctx.now (reverse (map prefix_of prefixes.now)) ts o) }
{
    let mut rest = prefixes;
    let mut us = ts;
    while let Some((last, before)) = rest.split_last() {
        match last {
            PrefixNode::Selector(p, w, _) => {
                match apply_word(alloc, env, ctx, Kind::Selector, *p, w, us)? {
                    Err(r) => return Ok(Err(r)),
                    Ok(vs) => us = vs,
                }
            }
            PrefixNode::ChoiceOf(p, _, _, _, _) => return Ok(Err(Refusal::UnknownSymbol(*p))),
            PrefixNode::ChoiceOver(p, _, _, _, _) => return Ok(Err(Refusal::UnknownSymbol(*p))),
        }
        rest = before;
    }
    Ok(Ok(us))
}
