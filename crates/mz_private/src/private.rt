//! What `deffunc` and `defpred` are read to.
ghost use Rattle.std.specs.Prelude.{◌≡◌, length, IfOk, OnOk};
ghost use Rattle.mz_resolve.specs.Answers.{OnRead};
ghost use Rattle.mz_resolve.specs.Calls.{TermRead, FormulaRead};
ghost use Rattle.mz_private.specs.Private.{inside, functor, predicate, FunctorRead, PredicateRead, with_functor, with_predicate};

use crate::bodies::{make_statement_body, make_term_body};
use crate::inside::{constant_count, enter, leave};
use mz_choice::fresh::next_number;
use mz_context::context::Context;
use mz_context::private::{PrivateFunctor, PrivatePredicate};
use mz_core::outcome::Left;
use mz_core::soft_types::SoftTypes;
use mz_core::statement::Statement;
use mz_environment::environment::Environment;
use mz_logic::term::Term;
use mz_places::places::read_places;
use mz_resolve::calls::{formula, term};
use mz_resolve::resolve_fault::ResolveFault;
use mz_tree::expressions::{FormulaTree, TermTree};
use mz_tree::word::Word;
use mz_tree_proof::introduction::{DeffuncTree, DefpredTree};
use std::alloc::{AllocError, Global};

/// The number of places. More than 4,294,967,295 are as no memory.
fn count_of(tys: &SoftTypes) -> Result<u32, AllocError>
    ensures { IfOk result (λ n. n ≡ length tys.now) }
{
    let count = tys.items.len();
    if count > 4294967295 {
        return Err(AllocError);
    }
    Ok(count as u32)
}

/// The private functor with these places, whose body was read where the first place is the constant with the number.
fn functor(
    alloc: Global,
    name: &Word,
    tys: SoftTypes,
    first: u32,
    t: Term,
) -> Result<PrivateFunctor, AllocError>
    ensures { IfOk result (λ f. f ≡ functor name.now tys first t) }
{
    let mut body = t;
    let count = count_of(&tys)?;
    make_term_body(alloc, &mut body, first, count)?;
    let name = name.spelling.copy(alloc)?;
    Ok(PrivateFunctor {
        name,
        places: tys,
        body,
    })
}

/// The same for a private predicate.
fn predicate(
    alloc: Global,
    name: &Word,
    tys: SoftTypes,
    first: u32,
    s: Statement,
) -> Result<PrivatePredicate, AllocError>
    ensures { IfOk result (λ p. p ≡ predicate name.now tys first s) }
{
    let mut body = s;
    let count = count_of(&tys)?;
    make_statement_body(alloc, &mut body, first, count)?;
    let name = name.spelling.copy(alloc)?;
    Ok(PrivatePredicate {
        name,
        places: tys,
        body,
    })
}

/// The term of a body. The context is as before.
#[tactic(auto, using(crate::proofs::PrivateLemmas::inside_rules))]
fn term_inside(
    alloc: Global,
    env: &Environment,
    ctx: &mut Context,
    least: u32,
    tys: &SoftTypes,
    tree: &TermTree,
    left: &mut Left,
) -> Result<Term, ResolveFault>
    ensures reads { OnRead result (λ o. TermRead env.now (inside ctx.old tys.now) least left.old tree.now o left.new) }
    ensures same { OnOk result (ctx.new ≡ ctx.old) }
{
    let count = constant_count(ctx);
    let before = enter(alloc, ctx, tys)?;
    match term(alloc, env, ctx, least, tree, left) {
        Ok(t) => {
            leave(ctx, count, before);
            Ok(t)
        }
        Err(f) => Err(f),
    }
}

/// The formula of a body. The context is as before.
#[tactic(auto, using(crate::proofs::PrivateLemmas::inside_rules))]
fn formula_inside(
    alloc: Global,
    env: &Environment,
    ctx: &mut Context,
    least: u32,
    tys: &SoftTypes,
    tree: &FormulaTree,
    left: &mut Left,
) -> Result<Statement, ResolveFault>
    ensures reads { OnRead result (λ o. FormulaRead env.now (inside ctx.old tys.now) least left.old tree.now o left.new) }
    ensures same { OnOk result (ctx.new ≡ ctx.old) }
{
    let count = constant_count(ctx);
    let before = enter(alloc, ctx, tys)?;
    match formula(alloc, env, ctx, least, tree, left) {
        Ok(s) => {
            leave(ctx, count, before);
            Ok(s)
        }
        Err(f) => Err(f),
    }
}

/// The private functor that `deffunc` defines. The context is as before; after a refusal nothing is said of it.
///
/// Refusals: those of the types of its places, from left to right, in which `$1`, `$2` and so on aren't known; then those of its term, in
/// which they are constants of these types.
#[tactic(auto, using(crate::proofs::PrivateLemmas::functor_rules))]
pub fn read_functor(
    alloc: Global,
    env: &Environment,
    ctx: &mut Context,
    least: u32,
    tree: &DeffuncTree,
    left: &mut Left,
) -> Result<PrivateFunctor, ResolveFault>
    ensures reads { OnRead result (λ o. FunctorRead env.now ctx.old least left.old tree.now o left.new) }
    ensures same { OnOk result (ctx.new ≡ ctx.old) }
{
    let tys = match read_places(alloc, env, ctx, least, &tree.types, left) {
        Ok(tys) => tys,
        Err(f) => return Err(f),
    };
    let first = next_number(ctx)?;
    match term_inside(alloc, env, ctx, least, &tys, &tree.term, left) {
        Ok(t) => {
            let f = functor(alloc, &tree.name, tys, first, t)?;
            Ok(f)
        }
        Err(f) => Err(f),
    }
}

/// The private predicate that `defpred` defines. The context is as before; after a refusal nothing is said of it.
///
/// Refusals: those of the types of its places and of its formula, as for a functor. A variable that is only reserved is
/// `UnknownVariable` in the formula.
#[tactic(auto, using(crate::proofs::PrivateLemmas::predicate_rules))]
pub fn read_predicate(
    alloc: Global,
    env: &Environment,
    ctx: &mut Context,
    least: u32,
    tree: &DefpredTree,
    left: &mut Left,
) -> Result<PrivatePredicate, ResolveFault>
    ensures reads { OnRead result (λ o. PredicateRead env.now ctx.old least left.old tree.now o left.new) }
    ensures same { OnOk result (ctx.new ≡ ctx.old) }
{
    let tys = match read_places(alloc, env, ctx, least, &tree.types, left) {
        Ok(tys) => tys,
        Err(f) => return Err(f),
    };
    let first = next_number(ctx)?;
    match formula_inside(alloc, env, ctx, least, &tys, &tree.formula, left) {
        Ok(s) => {
            let p = predicate(alloc, &tree.name, tys, first, s)?;
            Ok(p)
        }
        Err(f) => Err(f),
    }
}

/// Puts the private functor into force; there is no statement just before.
pub fn put_functor(ctx: &mut Context, f: PrivateFunctor) -> Result<(), AllocError>
    ensures { OnOk result (ctx.new ≡ with_functor ctx.old f) }
{
    ctx.functors.push(f)?;
    ctx.previous = None;
    Ok(())
}

/// The same for a private predicate.
pub fn put_predicate(ctx: &mut Context, p: PrivatePredicate) -> Result<(), AllocError>
    ensures { OnOk result (ctx.new ≡ with_predicate ctx.old p) }
{
    ctx.predicates.push(p)?;
    ctx.previous = None;
    Ok(())
}
