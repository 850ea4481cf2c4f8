//! What formulas without parts that are formulas are read to.
ghost use Rattle.std.specs.Prelude.{◌≡◌, List, ◌∷◌, map, Option, Result, Ok, IfOk, Some};
ghost use Rattle.mz_core.specs.Statement.{Statement};
ghost use Rattle.mz_names.specs.declared.refusal.Refusal.{Refusal};
ghost use Rattle.mz_tree.specs.Trees.{AdjectiveData};
ghost use Rattle.std.specs.Option.{option_map, option_copied};
ghost use Rattle.mz_tree.specs.Views.{term_of, terms_of, type_of, adjective_of};
ghost use Rattle.mz_formulas.specs.Atoms.{first_of, ReadsSide, ReadsPredicate, ReadsPrivate, ReadsIsType, ReadsAttributed, kept, kept_with, said, said_behind, said_within, ReadsFurther, ReadsIsAdjectives};

use mz_applied::application::{application, attribute_of};
use mz_applied::applied::{applied_attribute, applied_statement};
use mz_applied::private::applied_predicate;
use mz_base::place::Place;
use mz_context::context::Context;
use mz_core::statement::Statement;
use mz_environment::environment::Environment;
use mz_joined::said::of_type_within;
use mz_logic::kind::Kind;
use mz_logic::term::{Term, Terms};
use mz_names::refusal::Refusal;
use mz_sizes::keeps::statement_keeps;
use mz_terms::adjectives::{attribute_in, is_denied, read_own};
pub use mz_terms::terms::read_term;
use mz_terms::terms::read_terms;
pub use mz_terms::types::read_type;
use mz_tree::nodes::{AdjectiveNode, TermNode, TermsNode, TypeNode};
use mz_tree::places::first_place_of_terms;
use mz_tree::word::Word;
use std::alloc::{AllocError, Global};

/// The arguments on a side, where some are written there.
#[tactic(auto, using(crate::proofs::AtomLemmas::side_rules))]
fn read_side(
    alloc: Global,
    env: &Environment,
    ctx: &Context,
    least: u32,
    side: Option<&TermsNode>,
) -> Result<Result<Terms, Refusal>, AllocError>
    ensures { IfOk result (λ o. ReadsSide env.now ctx.now least (option_map terms_of (option_copied side.entry)) o) }
{
    match side {
        None => Ok(Ok(Terms::new(alloc))),
        Some(node) => {
            let o = read_terms(alloc, env, ctx, least, node)?;
            Ok(o)
        }
    }
}

/// The place of an atom's first token.
fn first_of(left: Option<&TermsNode>, w: &Word) -> Place
    ensures { first_of (option_map terms_of (option_copied left.entry)) w.now.place ≡ Some result }
{
    match left {
        None => w.place,
        Some(node) => first_place_of_terms(node),
    }
}

/// A predicate symbol between its arguments.
///
/// Refusals: those of the arguments from left to right, then those of the symbol, at it; `TooLarge` at the first token.
#[tactic(auto, using(crate::proofs::AtomLemmas::predicate_rules))]
pub fn read_predicate(
    alloc: Global,
    env: &Environment,
    ctx: &Context,
    least: u32,
    left: Option<&TermsNode>,
    w: &Word,
    right: Option<&TermsNode>,
) -> Result<Result<Statement, Refusal>, AllocError>
    ensures { IfOk result (λ o. ReadsPredicate env.now ctx.now least (option_map terms_of (option_copied left.entry)) w.now (option_map terms_of (option_copied right.entry)) o) }
{
    match read_side(alloc, env, ctx, least, left)? {
        Err(r) => Ok(Err(r)),
        Ok(ts) => match read_side(alloc, env, ctx, least, right)? {
            Err(r) => Ok(Err(r)),
            Ok(us) => {
                let first = first_of(left, w);
                let a = application(alloc, Kind::Predicate, &w.spelling, ts, us)?;
                let o = applied_statement(alloc, env, ctx, w.place, first, &a)?;
                Ok(o)
            }
        },
    }
}

/// A private predicate or a letter with arguments in brackets.
///
/// Refusals: those of the arguments, then those of the identifier, at it.
#[tactic(auto, using(crate::proofs::AtomLemmas::private_rules))]
pub fn read_private(
    alloc: Global,
    env: &Environment,
    ctx: &Context,
    least: u32,
    w: &Word,
    side: Option<&TermsNode>,
) -> Result<Result<Statement, Refusal>, AllocError>
    ensures { IfOk result (λ o. ReadsPrivate env.now ctx.now least w.now (option_map terms_of (option_copied side.entry)) o) }
{
    match read_side(alloc, env, ctx, least, side)? {
        Err(r) => Ok(Err(r)),
        Ok(ts) => {
            let name = w.spelling.as_slice();
            let o = applied_predicate(alloc, env, ctx, least, w.place, name, ts)?;
            Ok(o)
        }
    }
}

/// `t is T`. The context is as before.
///
/// Refusals: those of the term, then those of the type; `TooLarge` at the first token.
#[tactic(auto, using(crate::proofs::AtomLemmas::is_type_rules))]
pub fn read_is_type(
    alloc: Global,
    env: &Environment,
    ctx: &mut Context,
    least: u32,
    t: &TermNode,
    ty: &TypeNode,
) -> Result<Result<Statement, Refusal>, AllocError>
    ensures reads { IfOk result (λ o. ReadsIsType env.now ctx.old least (term_of t.now) (type_of ty.now) o) }
    ensures same { ctx.new ≡ ctx.old }
{
    match read_term(alloc, env, ctx, least, t)? {
        Err(r) => Ok(Err(r)),
        Ok(u) => match read_type(alloc, env, ctx, least, ty)? {
            Err(r) => Ok(Err(r)),
            Ok(s) => {
                let o = of_type_within(alloc, t.first_place(), &s, &u)?;
                Ok(o)
            }
        },
    }
}

/// An adjective said of a term. What it says may be beyond the limits.
#[tactic(auto, using(crate::proofs::AtomLemmas::attributed_rules))]
fn read_attributed(
    alloc: Global,
    env: &Environment,
    ctx: &Context,
    least: u32,
    u: &Term,
    node: &AdjectiveNode,
) -> Result<Result<Statement, Refusal>, AllocError>
    ensures { IfOk result (λ o. ReadsAttributed env.now ctx.now least u.now (adjective_of node.now) o) }
{
    match read_own(alloc, env, ctx, least, node)? {
        Err(r) => Ok(Err(r)),
        Ok(ts) => {
            let first = node.first_place();
            let non = is_denied(node);
            let w = attribute_in(node);
            let a = attribute_of(alloc, &w.spelling, ts, u)?;
            let o = applied_attribute(alloc, env, ctx, non, w.place, first, &a)?;
            Ok(o)
        }
    }
}

/// What is said so far; none where it is beyond the limits.
fn kept(s: Statement) -> Option<Statement>
    ensures { result ≡ kept s }
{
    if statement_keeps(&s) { Some(s) } else { None }
}

fn kept_with(
    alloc: Global,
    s: Option<Statement>,
    t: Statement,
) -> Result<Option<Statement>, AllocError>
    ensures { IfOk result (λ o. o ≡ kept_with s t) }
{
    match s {
        None => Ok(None),
        Some(s) => {
            let u = Statement::and(alloc, s, t)?;
            Ok(kept(u))
        }
    }
}

fn said(o: Result<Statement, Refusal>) -> Result<Option<Statement>, Refusal>
    ensures { result ≡ said o }
{
    match o {
        Err(r) => Err(r),
        Ok(s) => Ok(kept(s)),
    }
}

fn said_behind(
    alloc: Global,
    s: Option<Statement>,
    o: Result<Statement, Refusal>,
) -> Result<Result<Option<Statement>, Refusal>, AllocError>
    ensures { IfOk result (λ q. q ≡ said_behind s o) }
{
    match o {
        Err(r) => Ok(Err(r)),
        Ok(t) => {
            let u = kept_with(alloc, s, t)?;
            Ok(Ok(u))
        }
    }
}

/// All that was said; `TooLarge` at the place.
fn said_within(first: Place, o: Result<Option<Statement>, Refusal>) -> Result<Statement, Refusal>
    ensures { result ≡ said_within first o }
{
    match o {
        Err(r) => Err(r),
        Ok(None) => Err(Refusal::TooLarge(first)),
        Ok(Some(s)) => Ok(s),
    }
}

/// One adjective more, joined to what was said so far.
#[tactic(auto, using(crate::proofs::AtomLemmas::further_rules))]
fn and_attributed(
    alloc: Global,
    env: &Environment,
    ctx: &Context,
    least: u32,
    u: &Term,
    node: &AdjectiveNode,
    s: Option<Statement>,
) -> Result<Result<Option<Statement>, Refusal>, AllocError>
    ensures { IfOk result (λ q. (xs : List AdjectiveData) (o : Result (Option Statement) Refusal) → ReadsFurther env.now ctx.now least u.now xs q o → ReadsFurther env.now ctx.now least u.now (adjective_of node.now ∷ xs) (Ok s) o) }
{
    let so_far = Box::new(alloc, s)?;
    let p = read_attributed(alloc, env, ctx, least, u, node)?;
    let o = said_behind(alloc, Box::into_inner(so_far), p)?;
    Ok(o)
}

/// Further adjectives, each joined to what was said so far.
#[tactic(auto, using(crate::proofs::AtomLemmas::further_rules))]
fn read_further(
    alloc: Global,
    env: &Environment,
    ctx: &Context,
    least: u32,
    u: &Term,
    nodes: &[AdjectiveNode],
    p: Result<Option<Statement>, Refusal>,
) -> Result<Result<Option<Statement>, Refusal>, AllocError>
    ensures { IfOk result (λ o. ReadsFurther env.now ctx.now least u.now (map adjective_of nodes.now) p o) }
{
    let mut so_far = p;
    let mut rest = nodes;
    while let Some((node, others)) = rest.split_first() {
        match so_far {
            Err(r) => return Ok(Err(r)),
            Ok(s) => {
                so_far = and_attributed(alloc, env, ctx, least, u, node, s)?;
                rest = others;
            }
        }
    }
    Ok(so_far)
}

/// `t is A B ..`.
///
/// Refusals: those of the term, then those of the adjectives from left to right, each of which is `TooLarge` at its own first
/// token; at last `TooLarge` at the first token of all.
#[tactic(auto, using(crate::proofs::AtomLemmas::is_adjectives_rules))]
pub fn read_is_adjectives(
    alloc: Global,
    env: &Environment,
    ctx: &Context,
    least: u32,
    t: &TermNode,
    a: &AdjectiveNode,
    more: &[AdjectiveNode],
) -> Result<Result<Statement, Refusal>, AllocError>
    ensures { IfOk result (λ o. ReadsIsAdjectives env.now ctx.now least (term_of t.now) (adjective_of a.now) (map adjective_of more.now) o) }
{
    match read_term(alloc, env, ctx, least, t)? {
        Err(r) => Ok(Err(r)),
        Ok(u) => {
            let first = t.first_place();
            let p = read_attributed(alloc, env, ctx, least, &u, a)?;
            let o = read_further(alloc, env, ctx, least, &u, more, said(p))?;
            Ok(said_within(first, o))
        }
    }
}
