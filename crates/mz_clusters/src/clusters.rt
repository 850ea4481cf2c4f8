//! The parts of clusters, each read as an expression of its own.
//!
//! Each call takes the number `least` of the first constant that may be used, and lowers what the article has left by the nodes of
//! what is read: a type's as those of other types, an adjective's as soon as it is read. After a refusal nothing is said of what is
//! left. The context is as before.
ghost use Rattle.std.specs.Prelude.{◌≡◌, ◌∷◌, [], map, IfOk};
ghost use Rattle.mz_choice.specs.declared.choice.Wanted.TheVariants.{AdjectiveOf};
ghost use Rattle.mz_tree.specs.Views.{adjective_of};
ghost use Rattle.mz_parts.specs.Propositions.{all_read};
ghost use Rattle.mz_resolve.specs.Answers.{OnRead};
ghost use Rattle.mz_clusters.specs.Clusters.{RegisteredRead, AdjectiveRead, AdjectivesReadBehind, listed, AdjectivesRead, AdjectivesOfTermRead, AdjectivesOfTypeRead};

use mz_choice::choice::Wanted;
use mz_choice::fresh::{fresh, keep};
use mz_context::context::Context;
use mz_core::adjective::Adjective;
use mz_core::adjectives::Adjectives;
use mz_core::outcome::Left;
use mz_core::soft_type::SoftType;
use mz_environment::environment::Environment;
use mz_logic::term::Term;
use mz_names::refusal::Refusal;
use mz_resolve::budget::{budget, spend};
use mz_resolve::resolve_fault::ResolveFault;
use mz_sizes::nodes::{after_adjective, after_type};
use mz_terms::adjectives::read_adjective;
use mz_terms::types::read_registered;
use mz_tree::expressions::{AdjectivesTree, TypeTree};
use mz_tree::nodes::AdjectiveNode;
use std::alloc::{AllocError, Global};

/// The type of an existential registration, whose adjectives nothing has to cover.
///
/// Refusals: those of the type; `TooLarge` at its first token where the article has fewer nodes left.
#[tactic(auto, using(mz_resolve::proofs::CallLemmas::call_rules))]
pub fn registered_type(
    alloc: Global,
    env: &Environment,
    ctx: &mut Context,
    least: u32,
    tree: &TypeTree,
    left: &mut Left,
) -> Result<SoftType, ResolveFault>
    ensures reads { OnRead result (λ o. RegisteredRead env.now ctx.old least left.old tree.now o left.new) }
    ensures same { ctx.new ≡ ctx.old }
{
    match read_registered(alloc, env, ctx, least, tree.node())? {
        Err(r) => Err(ResolveFault::Refused(r)),
        Ok(t) => {
            let rest = after_type(&t, budget(left));
            if spend(left, rest)? {
                Ok(t)
            } else {
                Err(ResolveFault::Refused(Refusal::TooLarge(tree.first_place())))
            }
        }
    }
}

/// An adjective that is wanted of the subject.
#[tactic(auto, using(mz_resolve::proofs::CallLemmas::call_rules))]
fn read_counted(
    alloc: Global,
    env: &Environment,
    ctx: &Context,
    least: u32,
    wanted: &Wanted,
    subject: &Term,
    node: &AdjectiveNode,
    left: &mut Left,
) -> Result<Adjective, ResolveFault>
    ensures { OnRead result (λ o. AdjectiveRead env.now ctx.now least wanted.now subject.now left.old (adjective_of node.now) o left.new) }
{
    match read_adjective(alloc, env, ctx, least, wanted, subject, node)? {
        Err(r) => Err(ResolveFault::Refused(r)),
        Ok(a) => {
            let rest = after_adjective(&a, budget(left));
            if spend(left, rest)? {
                Ok(a)
            } else {
                Err(ResolveFault::Refused(Refusal::TooLarge(node.first_place())))
            }
        }
    }
}

/// Reads one of them, and puts it behind the others.
#[tactic(auto, using(crate::proofs::ClusterLemmas::one_rules))]
fn read_one(
    alloc: Global,
    env: &Environment,
    ctx: &Context,
    least: u32,
    wanted: &Wanted,
    subject: &Term,
    node: &AdjectiveNode,
    out: &mut Adjectives,
    left: &mut Left,
) -> Result<(), ResolveFault>
    ensures { OnRead result (λ o. AdjectivesReadBehind env.now ctx.now least wanted.now subject.now left.old (adjective_of node.now ∷ []) out.old (all_read o out.new) left.new) }
{
    match read_counted(alloc, env, ctx, least, wanted, subject, node, left) {
        Ok(a) => {
            out.push(a)?;
            Ok(())
        }
        Err(f) => Err(f),
    }
}

/// Reads adjectives one after another, and puts them behind the others.
#[tactic(auto, using(crate::proofs::ClusterLemmas::each_rules))]
fn read_each(
    alloc: Global,
    env: &Environment,
    ctx: &Context,
    least: u32,
    wanted: &Wanted,
    subject: &Term,
    nodes: &[AdjectiveNode],
    out: &mut Adjectives,
    left: &mut Left,
) -> Result<(), ResolveFault>
    ensures { OnRead result (λ o. AdjectivesReadBehind env.now ctx.now least wanted.now subject.now left.old (map adjective_of nodes.now) out.old (all_read o out.new) left.new) }
{
    let mut rest = nodes;
    while let Some((node, others)) = rest.split_first() {
        match read_one(alloc, env, ctx, least, wanted, subject, node, out, left) {
            Ok(()) => rest = others,
            Err(f) => return Err(f),
        }
    }
    Ok(())
}

/// Reads all adjectives of the tree, and puts them behind the others.
#[tactic(auto, using(crate::proofs::ClusterLemmas::all_rules))]
fn read_all(
    alloc: Global,
    env: &Environment,
    ctx: &Context,
    least: u32,
    wanted: &Wanted,
    subject: &Term,
    tree: &AdjectivesTree,
    out: &mut Adjectives,
    left: &mut Left,
) -> Result<(), ResolveFault>
    ensures { OnRead result (λ o. AdjectivesReadBehind env.now ctx.now least wanted.now subject.now left.old (listed tree.now) out.old (all_read o out.new) left.new) }
{
    match read_one(
        alloc,
        env,
        ctx,
        least,
        wanted,
        subject,
        tree.first(),
        out,
        left,
    ) {
        Ok(()) => read_each(
            alloc,
            env,
            ctx,
            least,
            wanted,
            subject,
            tree.more(),
            out,
            left,
        ),
        Err(f) => Err(f),
    }
}

/// The adjectives of the tree, as those that are wanted of the subject.
#[tactic(auto, using(crate::proofs::ClusterLemmas::list_rules))]
fn read_list(
    alloc: Global,
    env: &Environment,
    ctx: &Context,
    least: u32,
    wanted: &Wanted,
    subject: &Term,
    tree: &AdjectivesTree,
    left: &mut Left,
) -> Result<Adjectives, ResolveFault>
    ensures { OnRead result (λ o. AdjectivesRead env.now ctx.now least wanted.now subject.now left.old tree.now o left.new) }
{
    let mut out = Adjectives::new(alloc);
    match read_all(
        alloc, env, ctx, least, wanted, subject, tree, &mut out, left,
    ) {
        Ok(()) => Ok(out),
        Err(f) => Err(f),
    }
}

/// A cluster's adjectives, from left to right, as those of its term.
///
/// Refusals: those of each adjective; `TooLarge` at its first token where the article has fewer nodes left.
#[tactic(auto, using(crate::proofs::ClusterLemmas::term_rules))]
pub fn adjectives_of_term(
    alloc: Global,
    env: &Environment,
    ctx: &Context,
    least: u32,
    t: &Term,
    tree: &AdjectivesTree,
    left: &mut Left,
) -> Result<Adjectives, ResolveFault>
    ensures { OnRead result (λ o. AdjectivesOfTermRead env.now ctx.now least t.now left.old tree.now o left.new) }
{
    let wanted = Wanted::AdjectiveOf(t.copy(alloc)?);
    let o = read_list(alloc, env, ctx, least, &wanted, t, tree, left);
    o
}

/// A cluster's adjectives, from left to right, as those of a fresh constant of its type.
///
/// Refusals: as those of a term's adjectives.
#[tactic(auto, using(crate::proofs::ClusterLemmas::type_rules))]
pub fn adjectives_of_type(
    alloc: Global,
    env: &Environment,
    ctx: &mut Context,
    least: u32,
    ty: &SoftType,
    tree: &AdjectivesTree,
    left: &mut Left,
) -> Result<Adjectives, ResolveFault>
    ensures reads { OnRead result (λ o. AdjectivesOfTypeRead env.now ctx.old least ty.now left.old tree.now o left.new) }
    ensures same { ctx.new ≡ ctx.old }
{
    let ty = ty.copy(alloc)?;
    let count = ctx.constants.items.len();
    let n = ctx.add(fresh(alloc, ty))?;
    let wanted = Wanted::AdjectiveOfFresh(n);
    let subject = Term::constant(n);
    match read_list(alloc, env, ctx, least, &wanted, &subject, tree, left) {
        Ok(xs) => {
            keep(ctx, count);
            Ok(xs)
        }
        Err(f) => {
            keep(ctx, count);
            Err(f)
        }
    }
}
