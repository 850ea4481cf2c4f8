//! Whether what a registration owes keeps the limits on nodes and depth.
ghost use Rattle.std.specs.Prelude.{◌≡◌, ◌&&◌, nat_le, length, IfOk};
ghost use Rattle.std.specs.List.{list_all};
ghost use Rattle.mz_items.specs.Items.{owed_statements};
ghost use Rattle.mz_cluster_items.specs.Items.{are_few, has_few, sequent_keeps, cluster_item, cluster_keeps};

use mz_clusters::headings::ReadCluster;
use mz_context::constants::Constant;
use mz_core::adjectives::Adjectives;
use mz_core::item::Item;
use mz_core::typed_sequent::TypedSequent;
use mz_items::owed::owed_statements;
use mz_sizes::keeps::statement_keeps;
use std::alloc::{AllocError, Global};

fn few_adjectives(xs: &Adjectives) -> bool
    ensures { result ≡ are_few xs.now }
{
    xs.items.len() <= 512
}

fn has_few(x: &ReadCluster) -> bool
    ensures { result ≡ has_few x.now }
{
    match x {
        ReadCluster::Existential(x) => few_adjectives(&x.adjectives),
        ReadCluster::Conditional(x) => few_adjectives(&x.from) && few_adjectives(&x.to),
        ReadCluster::Functorial(x) => few_adjectives(&x.adjectives),
    }
}

fn sequent_keeps(q: &TypedSequent) -> bool
    ensures { result ≡ sequent_keeps q.now }
{
    statement_keeps(&q.conclusion)
}

fn are_kept(qs: &[TypedSequent]) -> bool
    ensures { result ≡ list_all sequent_keeps qs.now }
{
    for q in qs {
        if !sequent_keeps(q) {
            return false;
        }
    }
    true
}

fn owed_keeps(alloc: Global, x: &Item) -> Result<bool, AllocError>
    ensures { IfOk result (λ b. b ≡ list_all sequent_keeps (owed_statements x.now)) }
{
    let qs = owed_statements(alloc, x)?;
    Ok(are_kept(qs.items.as_slice()))
}

/// Whether what the cluster owes in a block with these loci, where it makes the item, has at most 65,536 nodes and at most the depth 512.
/// What has more than 512 loci, or more than 512 adjectives on a side, is deeper.
pub fn cluster_keeps(
    alloc: Global,
    loci: &[Option<Constant>],
    x: &ReadCluster,
    item: &Item,
) -> Result<bool, AllocError>
    ensures { IfOk result (λ b. b ≡ ((are_few loci.now && has_few x.now) && list_all sequent_keeps (owed_statements item.now))) }
{
    if loci.len() > 512 || !has_few(x) {
        return Ok(false);
    }
    owed_keeps(alloc, item)
}
