//! What sentences are read to.
ghost use Rattle.std.specs.Prelude.{◌≡◌, IfOk};
ghost use Rattle.mz_tree.specs.Views.{formula_of};
ghost use Rattle.mz_choice.specs.Fresh.{Grown};
ghost use Rattle.mz_joined.specs.Bound.{for_all_within};
ghost use Rattle.mz_formulas.specs.Sentences.{sentence_of, ReadsSentence};

use crate::declared::put_each;
use crate::formulas::read_formula;
use mz_base::place::Place;
use mz_choice::fresh::{keep, next_number};
use mz_context::context::Context;
use mz_core::statement::Statement;
use mz_environment::environment::Environment;
use mz_free::free::free_variables;
use mz_joined::bound::for_all_within;
use mz_names::refusal::Refusal;
use mz_names::variable::Variables;
use mz_tree::nodes::FormulaNode;
use std::alloc::{AllocError, Global};

/// A sentence as read: its free reserved variables in the order of their first occurrence, the statement in which these are
/// the next constants, and the statement for all of them.
#[derive(Drop)]
pub struct Sentence {
    pub variables: Variables,
    pub inner: Statement,
    pub closed: Statement,
}

/// The sentence of a statement that was read.
fn close(
    alloc: Global,
    first: Place,
    n: u32,
    vs: Variables,
    s: Statement,
) -> Result<Result<Sentence, Refusal>, AllocError>
    ensures { IfOk result (λ o. o ≡ sentence_of vs s (for_all_within first n vs s)) }
{
    let inner = Box::new(alloc, s.copy(alloc)?)?;
    match for_all_within(alloc, first, n, vs.items.as_slice(), s)? {
        Err(r) => Ok(Err(r)),
        Ok(closed) => Ok(Ok(Sentence {
            variables: vs,
            inner: Box::into_inner(inner),
            closed,
        })),
    }
}

/// The sentence, whose free reserved variables stay in force.
#[tactic(auto, using(crate::proofs::SentenceLemmas::inner_rules))]
fn read_inside(
    alloc: Global,
    env: &Environment,
    ctx: &mut Context,
    least: u32,
    node: &FormulaNode,
) -> Result<Result<Sentence, Refusal>, AllocError>
    ensures reads { IfOk result (λ o. ReadsSentence env.now least ctx.old (formula_of node.now) o) }
    ensures grown { Grown ctx.old ctx.new }
{
    let n = next_number(ctx)?;
    let vs = free_variables(alloc, least, ctx, node)?;
    put_each(alloc, ctx, vs.items.as_slice())?;
    match read_formula(alloc, env, ctx, least, node)? {
        Err(r) => Ok(Err(r)),
        Ok(s) => {
            let o = close(alloc, node.first_place(), n, vs, s)?;
            Ok(o)
        }
    }
}

/// The sentence that the formula is read to: an identifier in it may stand for a reserved variable, and it is closed over
/// these. The context is as before.
///
/// Refusals: those of the formula; `TooLarge` at its first token where it is beyond the limits when it is closed.
#[tactic(auto, using(crate::proofs::SentenceLemmas::sentence_rules))]
pub fn read_sentence(
    alloc: Global,
    env: &Environment,
    ctx: &mut Context,
    least: u32,
    node: &FormulaNode,
) -> Result<Result<Sentence, Refusal>, AllocError>
    ensures reads { IfOk result (λ o. ReadsSentence env.now least ctx.old (formula_of node.now) o) }
    ensures same { ctx.new ≡ ctx.old }
{
    let count = ctx.constants.items.len();
    match read_inside(alloc, env, ctx, least, node) {
        Ok(o) => {
            keep(ctx, count);
            Ok(o)
        }
        Err(e) => {
            keep(ctx, count);
            Err(e)
        }
    }
}
