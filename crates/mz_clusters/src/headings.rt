//! Headings of registrations, read.
//!
//! Each call takes the number `least` of the first constant that may be used, and lowers what the article has left by the nodes of
//! what is read. After a refusal nothing is said of what is left. The context is as before.
ghost use Rattle.std.specs.Prelude.{◌≡◌, Ok};
ghost use Rattle.mz_resolve.specs.Answers.{OnRead};
ghost use Rattle.mz_clusters.specs.Headings.{PremisesRead, ForTypeRead, ExistentialRead, ImplicationRead, ConditionalRead, OfTermRead, FunctorialRead, ClusterRead};

use crate::clusters::{adjectives_of_term, adjectives_of_type, registered_type};
use mz_context::context::Context;
use mz_core::adjectives::Adjectives;
use mz_core::outcome::Left;
use mz_core::soft_type::SoftType;
use mz_environment::environment::Environment;
use mz_logic::term::Term;
use mz_resolve::calls::{term, type_of};
use mz_resolve::resolve_fault::ResolveFault;
use mz_tree::expressions::AdjectivesTree;
use mz_tree_part::cluster::{
    ClusterTree, ConditionalTree, ExistentialTree, ForTypeTree, FunctorialTree,
};
use std::alloc::Global;

/// Some object of the type has the adjectives.
#[derive(Drop)]
pub struct ExistentialCluster {
    pub adjectives: Adjectives,
    pub ty: SoftType,
}

/// Each object of the type that has the first adjectives has the others.
#[derive(Drop)]
pub struct ConditionalCluster {
    pub from: Adjectives,
    pub to: Adjectives,
    pub ty: SoftType,
}

/// The term has the adjectives, where it is of the type.
#[derive(Drop)]
pub struct FunctorialCluster {
    pub term: Term,
    pub adjectives: Adjectives,
    pub ty: Option<SoftType>,
}

/// A cluster.
#[derive(Drop)]
pub enum ReadCluster {
    Existential(ExistentialCluster),
    Conditional(ConditionalCluster),
    Functorial(FunctorialCluster),
}

/// An existential cluster: its type, which needs no cover, then its adjectives.
///
/// Refusals: those of these parts, in this order.
#[tactic(auto, using(crate::proofs::HeadingLemmas::existential_rules))]
pub fn read_existential(
    alloc: Global,
    env: &Environment,
    ctx: &mut Context,
    least: u32,
    tree: &ExistentialTree,
    left: &mut Left,
) -> Result<ExistentialCluster, ResolveFault>
    ensures reads { OnRead result (λ o. ExistentialRead env.now ctx.old least left.old tree.now o left.new) }
    ensures same { ctx.new ≡ ctx.old }
{
    match registered_type(alloc, env, ctx, least, &tree.ty, left) {
        Err(f) => Err(f),
        Ok(ty) => match adjectives_of_type(alloc, env, ctx, least, &ty, &tree.adjectives, left) {
            Err(f) => Err(f),
            Ok(adjectives) => Ok(ExistentialCluster { adjectives, ty }),
        },
    }
}

/// The adjectives in front of `->`, which may be left out.
#[tactic(auto, using(crate::proofs::HeadingLemmas::premise_rules))]
fn read_premises(
    alloc: Global,
    env: &Environment,
    ctx: &mut Context,
    least: u32,
    ty: &SoftType,
    tree: &Option<AdjectivesTree>,
    left: &mut Left,
) -> Result<Adjectives, ResolveFault>
    ensures reads { OnRead result (λ o. PremisesRead env.now ctx.old least ty.now left.old tree.now o left.new) }
    ensures same { ctx.new ≡ ctx.old }
{
    match tree {
        None => Ok(Adjectives::new(alloc)),
        Some(xs) => adjectives_of_type(alloc, env, ctx, least, ty, xs, left),
    }
}

/// The adjectives of a conditional cluster, on both sides of `->`.
#[tactic(auto, using(crate::proofs::HeadingLemmas::implication_rules))]
fn read_implication(
    alloc: Global,
    env: &Environment,
    ctx: &mut Context,
    least: u32,
    ty: SoftType,
    tree: &ConditionalTree,
    left: &mut Left,
) -> Result<ConditionalCluster, ResolveFault>
    ensures reads { OnRead result (λ o. ImplicationRead env.now ctx.old least ty left.old tree.now o left.new) }
    ensures same { ctx.new ≡ ctx.old }
{
    match read_premises(alloc, env, ctx, least, &ty, &tree.premises, left) {
        Err(f) => Err(f),
        Ok(from) => match adjectives_of_type(alloc, env, ctx, least, &ty, &tree.adjectives, left) {
            Err(f) => Err(f),
            Ok(to) => Ok(ConditionalCluster { from, to, ty }),
        },
    }
}

/// A conditional cluster: its type, then its adjectives from left to right.
///
/// Refusals: those of these parts, in this order.
#[tactic(auto, using(crate::proofs::HeadingLemmas::conditional_rules))]
pub fn read_conditional(
    alloc: Global,
    env: &Environment,
    ctx: &mut Context,
    least: u32,
    tree: &ConditionalTree,
    left: &mut Left,
) -> Result<ConditionalCluster, ResolveFault>
    ensures reads { OnRead result (λ o. ConditionalRead env.now ctx.old least left.old tree.now o left.new) }
    ensures same { ctx.new ≡ ctx.old }
{
    match type_of(alloc, env, ctx, least, &tree.for_type.ty, left) {
        Err(f) => Err(f),
        Ok(ty) => read_implication(alloc, env, ctx, least, ty, tree, left),
    }
}

/// The type behind `for`, which may be left out.
#[tactic(auto, using(crate::proofs::HeadingLemmas::for_rules))]
fn read_for_type(
    alloc: Global,
    env: &Environment,
    ctx: &mut Context,
    least: u32,
    tree: &Option<ForTypeTree>,
    left: &mut Left,
) -> Result<Option<SoftType>, ResolveFault>
    ensures reads { OnRead result (λ o. ForTypeRead env.now ctx.old least left.old tree.now o left.new) }
    ensures same { ctx.new ≡ ctx.old }
{
    match tree {
        None => Ok(None),
        Some(x) => match type_of(alloc, env, ctx, least, &x.ty, left) {
            Err(f) => Err(f),
            Ok(ty) => Ok(Some(ty)),
        },
    }
}

/// The type and the adjectives of a functorial cluster with the term.
#[tactic(auto, using(crate::proofs::HeadingLemmas::of_term_rules))]
fn read_of_term(
    alloc: Global,
    env: &Environment,
    ctx: &mut Context,
    least: u32,
    term: Term,
    tree: &FunctorialTree,
    left: &mut Left,
) -> Result<FunctorialCluster, ResolveFault>
    ensures reads { OnRead result (λ o. OfTermRead env.now ctx.old least term left.old tree.now o left.new) }
    ensures same { ctx.new ≡ ctx.old }
{
    match read_for_type(alloc, env, ctx, least, &tree.for_type, left) {
        Err(f) => Err(f),
        Ok(ty) => match adjectives_of_term(alloc, env, ctx, least, &term, &tree.adjectives, left) {
            Err(f) => Err(f),
            Ok(adjectives) => Ok(FunctorialCluster {
                term,
                adjectives,
                ty,
            }),
        },
    }
}

/// A functorial cluster: its term, its type where it is written, then its adjectives.
///
/// Refusals: those of these parts, in this order.
#[tactic(auto, using(crate::proofs::HeadingLemmas::functorial_rules))]
pub fn read_functorial(
    alloc: Global,
    env: &Environment,
    ctx: &mut Context,
    least: u32,
    tree: &FunctorialTree,
    left: &mut Left,
) -> Result<FunctorialCluster, ResolveFault>
    ensures reads { OnRead result (λ o. FunctorialRead env.now ctx.old least left.old tree.now o left.new) }
    ensures same { ctx.new ≡ ctx.old }
{
    match term(alloc, env, ctx, least, &tree.term, left) {
        Err(f) => Err(f),
        Ok(t) => read_of_term(alloc, env, ctx, least, t, tree, left),
    }
}

/// A cluster; `None` for the forms that aren't built.
///
/// Refusals: those of its parts, in the order of the reading.
#[tactic(auto, using(crate::proofs::HeadingLemmas::cluster_rules))]
pub fn read_cluster(
    alloc: Global,
    env: &Environment,
    ctx: &mut Context,
    least: u32,
    tree: &ClusterTree,
    left: &mut Left,
) -> Result<Option<ReadCluster>, ResolveFault>
    ensures reads { OnRead result (λ o. ClusterRead env.now ctx.old least left.old tree.now o left.new) }
    ensures same { ctx.new ≡ ctx.old }
{
    match tree {
        ClusterTree::Existential(t) => match read_existential(alloc, env, ctx, least, t, left) {
            Err(f) => Err(f),
            Ok(x) => Ok(Some(ReadCluster::Existential(x))),
        },
        ClusterTree::Conditional(t) => match read_conditional(alloc, env, ctx, least, t, left) {
            Err(f) => Err(f),
            Ok(x) => Ok(Some(ReadCluster::Conditional(x))),
        },
        ClusterTree::Functorial(t) => match read_functorial(alloc, env, ctx, least, t, left) {
            Err(f) => Err(f),
            Ok(x) => Ok(Some(ReadCluster::Functorial(x))),
        },
        ClusterTree::Reduce(_) => Ok(None),
        ClusterTree::Identify(_) => Ok(None),
    }
}
