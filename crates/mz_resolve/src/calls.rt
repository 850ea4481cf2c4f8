//! Terms, types, formulas and sentences that are part of no other expression.
//!
//! Each call takes the number `least` of the first constant that may be used: in the text of an item that is the first one
//! behind those of the article's own level, and elsewhere 0. It lowers what the article has left by the nodes of what is read;
//! after a refusal nothing is said of what is left. The context is as before.
//!
//! Refusals, the first in the order of the reading: `UnknownSymbol`, `NoNotation`, `UnknownVariable`, `Unregistered`,
//! `UnfitArgument` and `TooLarge`, each with its place; `TooLarge` at the first token, too, where the article has fewer nodes
//! left. `Memory` for want of memory.
ghost use Rattle.std.specs.Prelude.{◌≡◌};
ghost use Rattle.mz_resolve.specs.Answers.{OnRead};
ghost use Rattle.mz_resolve.specs.Calls.{TermRead, TypeRead, FormulaRead, SentenceRead};

use crate::budget::{budget, spend};
use crate::resolve_fault::ResolveFault;
use mz_context::context::Context;
use mz_core::outcome::Left;
use mz_core::soft_type::SoftType;
use mz_core::statement::Statement;
use mz_environment::environment::Environment;
use mz_formulas::atoms::{read_term, read_type};
use mz_formulas::formulas::read_formula;
use mz_formulas::sentence::{Sentence, read_sentence};
use mz_logic::term::Term;
use mz_names::refusal::Refusal;
use mz_sizes::nodes::{after_statement, after_term, after_type};
use mz_tree::expressions::{FormulaTree, TermTree, TypeTree};
use std::alloc::Global;

/// The term that the tree is read to.
#[tactic(auto, using(crate::proofs::CallLemmas::call_rules))]
pub fn term(
    alloc: Global,
    env: &Environment,
    ctx: &Context,
    least: u32,
    tree: &TermTree,
    left: &mut Left,
) -> Result<Term, ResolveFault>
    ensures { OnRead result (λ o. TermRead env.now ctx.now least left.old tree.now o left.new) }
{
    match read_term(alloc, env, ctx, least, tree.node())? {
        Err(r) => Err(ResolveFault::Refused(r)),
        Ok(t) => {
            let rest = after_term(&t, budget(left));
            if spend(left, rest)? {
                Ok(t)
            } else {
                Err(ResolveFault::Refused(Refusal::TooLarge(tree.first_place())))
            }
        }
    }
}

/// The type that the tree is read to.
#[tactic(auto, using(crate::proofs::CallLemmas::call_rules))]
pub fn type_of(
    alloc: Global,
    env: &Environment,
    ctx: &mut Context,
    least: u32,
    tree: &TypeTree,
    left: &mut Left,
) -> Result<SoftType, ResolveFault>
    ensures reads { OnRead result (λ o. TypeRead env.now ctx.old least left.old tree.now o left.new) }
    ensures same { ctx.new ≡ ctx.old }
{
    match read_type(alloc, env, ctx, least, tree.node())? {
        Err(r) => Err(ResolveFault::Refused(r)),
        Ok(t) => {
            let rest = after_type(&t, budget(left));
            if spend(left, rest)? {
                Ok(t)
            } else {
                Err(ResolveFault::Refused(Refusal::TooLarge(tree.first_place())))
            }
        }
    }
}

/// The statement that the formula is read to. An identifier that is only reserved is `UnknownVariable`.
#[tactic(auto, using(crate::proofs::CallLemmas::call_rules))]
pub fn formula(
    alloc: Global,
    env: &Environment,
    ctx: &mut Context,
    least: u32,
    tree: &FormulaTree,
    left: &mut Left,
) -> Result<Statement, ResolveFault>
    ensures reads { OnRead result (λ o. FormulaRead env.now ctx.old least left.old tree.now o left.new) }
    ensures same { ctx.new ≡ ctx.old }
{
    match read_formula(alloc, env, ctx, least, tree.node())? {
        Err(r) => Err(ResolveFault::Refused(r)),
        Ok(s) => {
            let rest = after_statement(&s, budget(left));
            if spend(left, rest)? {
                Ok(s)
            } else {
                Err(ResolveFault::Refused(Refusal::TooLarge(tree.first_place())))
            }
        }
    }
}

/// The sentence that the formula is read to, closed over its free reserved variables.
#[tactic(auto, using(crate::proofs::CallLemmas::call_rules))]
pub fn sentence(
    alloc: Global,
    env: &Environment,
    ctx: &mut Context,
    least: u32,
    tree: &FormulaTree,
    left: &mut Left,
) -> Result<Sentence, ResolveFault>
    ensures reads { OnRead result (λ o. SentenceRead env.now ctx.old least left.old tree.now o left.new) }
    ensures same { ctx.new ≡ ctx.old }
{
    match read_sentence(alloc, env, ctx, least, tree.node())? {
        Err(r) => Err(ResolveFault::Refused(r)),
        Ok(s) => {
            let rest = after_statement(&s.closed, budget(left));
            if spend(left, rest)? {
                Ok(s)
            } else {
                Err(ResolveFault::Refused(Refusal::TooLarge(tree.first_place())))
            }
        }
    }
}
