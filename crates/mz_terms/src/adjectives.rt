//! What adjectives are read to.
ghost use Rattle.std.specs.Prelude.{◌≡◌, [], map, IfOk};
ghost use Rattle.mz_tree.specs.Views.{adjective_of};
ghost use Rattle.mz_terms.specs.Adjectives.{is_denied, attribute_in, ReadsOwn, ReadsAdjective, ReadsAdjectives};

use crate::bases::identifier;
use crate::terms::read_terms;
use mz_applied::application::attribute_of;
use mz_applied::applied::applied_adjective;
use mz_choice::choice::Wanted;
use mz_context::context::Context;
use mz_core::adjective::Adjective;
use mz_core::adjectives::Adjectives;
use mz_environment::environment::Environment;
use mz_logic::term::{Term, Terms};
use mz_names::refusal::Refusal;
use mz_tree::nodes::AdjectiveNode;
use mz_tree::word::Word;
use std::alloc::{AllocError, Global};

/// Whether it is written with `non`.
#[tactic(auto, using(mz_tree::proofs::Views::adjective_rules))]
pub fn is_denied(node: &AdjectiveNode) -> bool
    ensures { result ≡ is_denied (adjective_of node.now) }
{
    match node {
        AdjectiveNode::Plain(non, _) => non.is_some(),
        AdjectiveNode::WithIdentifier(non, _, _) => non.is_some(),
        AdjectiveNode::WithTerms(non, _, _, _, _) => non.is_some(),
    }
}

/// Its symbol.
#[tactic(auto, using(mz_tree::proofs::Views::adjective_rules))]
pub fn attribute_in(node: &AdjectiveNode) -> &Word
    ensures { result.now ≡ attribute_in (adjective_of node.now) }
{
    match node {
        AdjectiveNode::Plain(_, w) => w,
        AdjectiveNode::WithIdentifier(_, _, w) => w,
        AdjectiveNode::WithTerms(_, _, _, _, w) => w,
    }
}

/// Its arguments, which are an identifier or stand in parentheses.
#[tactic(auto, using(crate::proofs::AdjectiveLemmas::own_rules))]
pub fn read_own(
    alloc: Global,
    env: &Environment,
    ctx: &Context,
    least: u32,
    node: &AdjectiveNode,
) -> Result<Result<Terms, Refusal>, AllocError>
    ensures { IfOk result (λ o. ReadsOwn env.now ctx.now least (adjective_of node.now) o) }
{
    match node {
        AdjectiveNode::Plain(_, _) => Ok(Ok(Terms::new(alloc))),
        AdjectiveNode::WithIdentifier(_, x, _) => {
            let o = identifier(alloc, ctx, least, x)?;
            Ok(o)
        }
        AdjectiveNode::WithTerms(_, _, a, _, _) => {
            let o = read_terms(alloc, env, ctx, least, a)?;
            Ok(o)
        }
    }
}

/// The adjective that the tree is read to, as what is wanted of the subject.
///
/// Refusals: those of its arguments, and then those of the attribute, at its symbol; `TooLarge` at the first token.
#[tactic(auto, using(crate::proofs::AdjectiveLemmas::adjective_rules))]
pub fn read_adjective(
    alloc: Global,
    env: &Environment,
    ctx: &Context,
    least: u32,
    wanted: &Wanted,
    subject: &Term,
    node: &AdjectiveNode,
) -> Result<Result<Adjective, Refusal>, AllocError>
    ensures { IfOk result (λ o. ReadsAdjective env.now ctx.now least wanted.now subject.now (adjective_of node.now) o) }
{
    match read_own(alloc, env, ctx, least, node)? {
        Err(r) => Ok(Err(r)),
        Ok(ts) => {
            let first = node.first_place();
            let non = is_denied(node);
            let w = attribute_in(node);
            let a = attribute_of(alloc, &w.spelling, ts, subject)?;
            let o = applied_adjective(alloc, env, ctx, wanted, non, w.place, first, &a)?;
            Ok(o)
        }
    }
}

/// The adjectives that the trees are read to, from left to right, or the first refusal.
#[tactic(auto, using(crate::proofs::AdjectiveLemmas::list_rules))]
pub fn read_adjectives(
    alloc: Global,
    env: &Environment,
    ctx: &Context,
    least: u32,
    wanted: &Wanted,
    subject: &Term,
    nodes: &[AdjectiveNode],
) -> Result<Result<Adjectives, Refusal>, AllocError>
    ensures { IfOk result (λ o. ReadsAdjectives env.now ctx.now least wanted.now subject.now (map adjective_of nodes.now) [] o) }
{
    let mut out = Adjectives::new(alloc);
    let mut rest = nodes;
    while let Some((node, others)) = rest.split_first() {
        match read_adjective(alloc, env, ctx, least, wanted, subject, node)? {
            Err(r) => return Ok(Err(r)),
            Ok(a) => {
                out.push(a)?;
                rest = others;
            }
        }
    }
    Ok(Ok(out))
}
