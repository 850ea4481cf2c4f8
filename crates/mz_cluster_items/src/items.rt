//! The registrations that clusters make.
ghost use Rattle.std.specs.Prelude.{◌≡◌, ◌+◌, ◌||◌, IfOk};
ghost use Rattle.std.specs.List.{list_any};
ghost use Rattle.mz_core.specs.declared.item.Item.TheVariants as item;
ghost use Rattle.mz_context.specs.Gather.{occurs_in_adjective};
ghost use Rattle.mz_clusters.specs.declared.headings.ReadCluster.TheVariants as cluster;
ghost use Rattle.mz_cluster_items.specs.Items.{occurs_in_adjectives, occurs_in_type_if_any, occurs_in_cluster, all_occur, cluster_item};

use crate::over_loci::{adjectives_over_loci, term_over_loci, type_if_any_over_loci};
use mz_clusters::headings::{
    ConditionalCluster, ExistentialCluster, FunctorialCluster, ReadCluster,
};
use mz_context::constants::Constant;
use mz_context::gather::occurs_in_type;
use mz_core::adjective::Adjective;
use mz_core::adjectives::Adjectives;
use mz_core::item::Item;
use mz_core::registration::{
    ConditionalRegistration, ExistentialRegistration, FunctorialRegistration,
};
use mz_core::soft_type::SoftType;
use mz_items::loci::count_of;
use mz_loci::loci::{locus_types, type_over_loci};
use std::alloc::{AllocError, Global};

fn occurs_in_adjective(a: &Adjective, n: u32) -> bool
    ensures { result ≡ occurs_in_adjective n a.now }
{
    a.args.have_constant(n)
}

fn occurs_in_adjectives(xs: &Adjectives, n: u32) -> bool
    ensures { result ≡ occurs_in_adjectives n xs.now }
{
    for a in &xs.items {
        if occurs_in_adjective(a, n) {
            return true;
        }
    }
    false
}

fn occurs_in_type_if_any(ty: &Option<SoftType>, n: u32) -> bool
    ensures { result ≡ occurs_in_type_if_any n ty.now }
{
    match ty {
        None => false,
        Some(ty) => occurs_in_type(ty, n),
    }
}

/// Whether the constant occurs in the cluster's term, types or adjectives, as they are read.
fn occurs_in_cluster(x: &ReadCluster, n: u32) -> bool
    ensures { result ≡ occurs_in_cluster n x.now }
{
    match x {
        ReadCluster::Existential(x) => {
            occurs_in_type(&x.ty, n) || occurs_in_adjectives(&x.adjectives, n)
        }
        ReadCluster::Conditional(x) => {
            occurs_in_type(&x.ty, n)
                || (occurs_in_adjectives(&x.from, n) || occurs_in_adjectives(&x.to, n))
        }
        ReadCluster::Functorial(x) => {
            x.term.has_constant(n)
                || (occurs_in_type_if_any(&x.ty, n) || occurs_in_adjectives(&x.adjectives, n))
        }
    }
}

/// Whether the locus, the constant with the number `least + k`, occurs in it.
fn locus_occurs(least: u32, k: u32, x: &ReadCluster) -> Result<bool, AllocError>
    ensures { IfOk result (λ b. b ≡ occurs_in_cluster (least + k) x.now) }
{
    let n = least.checked_add(k).ok_or(AllocError)?;
    Ok(occurs_in_cluster(x, n))
}

/// Whether so many loci, the constants from `least` on, all occur in it. More than 4,294,967,295 constants are as no memory.
#[tactic(auto, using(crate::proofs::ItemLemmas::occur_rules))]
pub fn all_occur(least: u32, count: u32, x: &ReadCluster) -> Result<bool, AllocError>
    ensures { IfOk result (λ b. b ≡ all_occur least count x.now) }
{
    let mut k = count;
    while k > 0 {
        k -= 1;
        let there = locus_occurs(least, k, x)?;
        if !there {
            return Ok(false);
        }
    }
    Ok(true)
}

fn existential_item(
    alloc: Global,
    least: u32,
    loci: &[Option<Constant>],
    x: &ExistentialCluster,
) -> Result<Item, AllocError>
    ensures { IfOk result (λ i. i ≡ cluster_item least loci.now (cluster.Existential x.now)) }
{
    let count = count_of(loci.len())?;
    let adjectives = adjectives_over_loci(alloc, &x.adjectives, least, count)?;
    let ty = type_over_loci(alloc, &x.ty, least, count)?;
    let loci = locus_types(alloc, loci, least)?;
    Ok(Item::Existential(ExistentialRegistration {
        loci,
        adjectives,
        ty,
    }))
}

fn conditional_item(
    alloc: Global,
    least: u32,
    loci: &[Option<Constant>],
    x: &ConditionalCluster,
) -> Result<Item, AllocError>
    ensures { IfOk result (λ i. i ≡ cluster_item least loci.now (cluster.Conditional x.now)) }
{
    let count = count_of(loci.len())?;
    let from = adjectives_over_loci(alloc, &x.from, least, count)?;
    let to = adjectives_over_loci(alloc, &x.to, least, count)?;
    let ty = type_over_loci(alloc, &x.ty, least, count)?;
    let loci = locus_types(alloc, loci, least)?;
    Ok(Item::Conditional(ConditionalRegistration { loci, from, to, ty }))
}

fn functorial_item(
    alloc: Global,
    least: u32,
    loci: &[Option<Constant>],
    x: &FunctorialCluster,
) -> Result<Item, AllocError>
    ensures { IfOk result (λ i. i ≡ cluster_item least loci.now (cluster.Functorial x.now)) }
{
    let count = count_of(loci.len())?;
    let term = term_over_loci(alloc, &x.term, least, count)?;
    let adjectives = adjectives_over_loci(alloc, &x.adjectives, least, count)?;
    let ty = type_if_any_over_loci(alloc, &x.ty, least, count)?;
    let loci = locus_types(alloc, loci, least)?;
    Ok(Item::Functorial(FunctorialRegistration {
        loci,
        term,
        adjectives,
        ty,
    }))
}

/// The registration that the cluster makes in a block with these loci, the constants from `least` on.
pub fn cluster_item(
    alloc: Global,
    least: u32,
    loci: &[Option<Constant>],
    x: &ReadCluster,
) -> Result<Item, AllocError>
    ensures { IfOk result (λ i. i ≡ cluster_item least loci.now x.now) }
{
    match x {
        ReadCluster::Existential(x) => existential_item(alloc, least, loci, x),
        ReadCluster::Conditional(x) => conditional_item(alloc, least, loci, x),
        ReadCluster::Functorial(x) => functorial_item(alloc, least, loci, x),
    }
}
