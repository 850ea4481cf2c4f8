//! Headings of blocks of registrations, taken.
ghost use Rattle.std.specs.Prelude.{◌≡◌, List, IfOk, OnOk};
ghost use Rattle.mz_resolve.specs.Answers.{OnRead};
ghost use Rattle.mz_clusters.specs.Headings.{ClusterRead};
ghost use Rattle.mz_conditions.specs.Conditions.{asked, TakesConditions};
ghost use Rattle.mz_standing.specs.Standing.{extent_of, with_left};
ghost use Rattle.mz_taken.specs.Answers.{OnTaken, Brings};
ghost use Rattle.mz_obligations.specs.declared.obligation.Obligation.{Obligation};
ghost use Rattle.mz_owed.specs.Owed.{missing};
ghost use Rattle.mz_cluster_items.specs.Items.{cluster_item, cluster_keeps};
ghost use Rattle.mz_registered.specs.Headings.{first_of_cluster, block_loci, registered, missing_or_registered, TakesItem, TakesCluster, Heads};
ghost use Rattle.mz_registering.specs.Ends.{EndsWith, HeadsAs};

use mz_base::place::Place;
use mz_base::text::Text;
use mz_cluster_items::items::{all_occur, cluster_item};
use mz_cluster_items::limits::cluster_keeps;
use mz_clusters::headings::{ReadCluster, read_cluster};
use mz_conditions::conditions::take_conditions;
use mz_context::constants::Constant;
use mz_core::item::Item;
use mz_items::loci::count_of;
use mz_justified::proof_fault::ProofRefusal;
use mz_justified::walker::Walker;
use mz_loci::loci::loci_from;
use mz_names::refusal::Refusal;
use mz_obligations::obligation::Obligations;
use mz_owed::owed::{Owed, at_first, missing};
use mz_resolve::resolve_fault::ResolveFault;
use mz_standing::changes::{extent_of, put_item};
use mz_standing::labels::end_heading;
use mz_standing::standing::Standing;
use mz_taken::item_fault::{ItemFault, ItemRefusal, of_reading};
use mz_tree_item::definition::ConditionTree;
use mz_tree_part::cluster::ClusterTree;
use mz_walk::prove_steps::ProveSteps;
use std::alloc::{AllocError, Global};

/// The place of a cluster's first token.
pub fn first_of_cluster(t: &ClusterTree) -> Place
    ensures { result ≡ first_of_cluster t.now }
{
    match t {
        ClusterTree::Existential(t) => t.cluster,
        ClusterTree::Conditional(t) => t.cluster,
        ClusterTree::Functorial(t) => t.cluster,
        ClusterTree::Reduce(t) => t.reduce,
        ClusterTree::Identify(t) => t.identify,
    }
}

fn block_loci(s: &Standing, least: u32) -> &[Option<Constant>]
    ensures { result.now ≡ block_loci least s.now }
{
    loci_from(s.context.constants.items.as_slice(), least)
}

/// The cluster as read. Nothing but what is left changes.
fn read_heading(
    alloc: Global,
    s: &mut Standing,
    least: u32,
    t: &ClusterTree,
) -> Result<Option<ReadCluster>, ResolveFault>
    ensures reads { OnRead result (λ o. ClusterRead s.old.environment s.old.context least s.old.left t.now o s.new.left) }
    ensures same { IfOk result (λ x. s.new ≡ with_left s.old s.new.left) }
{
    read_cluster(alloc, &s.environment, &mut s.context, least, t, &mut s.left)
}

/// Takes the conditions of the registration, by what stands. Nothing but what is left changes.
fn take_owed<P: ProveSteps>(
    alloc: Global,
    s: &mut Standing,
    os: &mut Obligations,
    least: u32,
    count: u32,
    x: &Item,
    owed: &mut Owed,
    ws: &[ConditionTree],
) -> Result<(), ItemFault>
    ensures takes { OnTaken result (Brings (TakesConditions s.old.environment (extent_of s.old) s.old.context least count x.now (asked owed.old s.old.left) ws.now) (asked owed.new s.new.left) os.old os.new) }
    ensures same { OnOk result (s.new ≡ with_left s.old s.new.left) }
{
    let at = extent_of(s);
    let walker = Walker {
        alloc,
        env: &s.environment,
        at,
    };
    take_conditions::<P>(
        walker,
        &mut s.context,
        least,
        count,
        x,
        owed,
        &mut s.left,
        os,
        ws,
    )
}

/// Puts the registration into force.
fn register(alloc: Global, s: &mut Standing, x: Item) -> Result<(), AllocError>
    ensures { OnOk result (s.new ≡ registered s.old x s.old.left) }
{
    end_heading(alloc, &mut s.context, &x, Text::new(alloc))?;
    put_item(alloc, s, x)
}

/// The registration behind its conditions.
#[tactic(auto, using(crate::proofs::HeadingLemmas::missing_rules))]
fn end_item(
    alloc: Global,
    s: &mut Standing,
    x: Item,
    owed: &Owed,
    behind: Place,
) -> Result<(), ItemFault>
    ensures { (os : List Obligation) → OnTaken result (EndsWith os (missing_or_registered s.old x behind os s.old.left (missing owed.now)) s.new) }
{
    match missing(owed) {
        Some(c) => Err(ItemFault::Refused(ItemRefusal::ConditionMissing {
            place: behind,
            condition: c.number(),
        })),
        None => {
            register(alloc, s, x)?;
            Ok(())
        }
    }
}

/// Takes the registration with its conditions, in a block with so many loci, the constants from `least` on.
fn take_item<P: ProveSteps>(
    alloc: Global,
    s: &mut Standing,
    os: &mut Obligations,
    least: u32,
    count: u32,
    x: Item,
    ws: &[ConditionTree],
    behind: Place,
) -> Result<(), ItemFault>
    ensures { OnTaken result (Brings (TakesItem least count s.old x ws.now behind) s.new os.old os.new) }
{
    let mut owed = at_first(alloc, &x)?;
    match take_owed::<P>(alloc, s, os, least, count, &x, &mut owed, ws) {
        Err(fault) => Err(fault),
        Ok(()) => end_item(alloc, s, x, &owed, behind),
    }
}

/// The registration that the cluster makes in the block, and whether what it owes keeps the limits.
fn make_item(
    alloc: Global,
    s: &Standing,
    least: u32,
    x: &ReadCluster,
) -> Result<(Item, bool), AllocError>
    ensures { IfOk result (λ y. (y.0 ≡ cluster_item least (block_loci least s.now) x.now) × (y.1 ≡ cluster_keeps least (block_loci least s.now) x.now)) }
{
    let loci = block_loci(s, least);
    let item = cluster_item(alloc, least, loci, x)?;
    let keeps = cluster_keeps(alloc, loci, x, &item)?;
    Ok((item, keeps))
}

/// Takes a cluster as read, whose first token stands at the place, with its conditions.
#[tactic(auto, using(crate::proofs::HeadingLemmas::cluster_rules))]
fn take_cluster<P: ProveSteps>(
    alloc: Global,
    s: &mut Standing,
    os: &mut Obligations,
    least: u32,
    place: Place,
    x: &ReadCluster,
    ws: &[ConditionTree],
    behind: Place,
) -> Result<(), ItemFault>
    ensures { OnTaken result (Brings (TakesCluster least s.old place x.now ws.now behind) s.new os.old os.new) }
{
    let count = count_of(block_loci(s, least).len())?;
    if !all_occur(least, count, x)? {
        return Err(ItemFault::Refused(ItemRefusal::BadLoci(place)));
    }
    let (item, keeps) = make_item(alloc, s, least, x)?;
    if !keeps {
        return Err(ItemFault::Refused(ItemRefusal::Proof(ProofRefusal::Resolve(Refusal::TooLarge(
            place,
        )))));
    }
    take_item::<P>(alloc, s, os, least, count, item, ws, behind)
}

/// Takes a heading as read, with its conditions; one that isn't built is refused.
#[tactic(auto, using(crate::proofs::HeadingLemmas::read_rules))]
fn take_read<P: ProveSteps>(
    alloc: Global,
    s: &mut Standing,
    os: &mut Obligations,
    least: u32,
    t: &ClusterTree,
    o: Option<ReadCluster>,
    ws: &[ConditionTree],
    behind: Place,
) -> Result<(), ItemFault>
    ensures { OnTaken result (Brings (HeadsAs least s.old t.now ws.now behind o) s.new os.old os.new) }
{
    let place = first_of_cluster(t);
    match o {
        None => Err(ItemFault::Refused(ItemRefusal::Proof(ProofRefusal::NotBuilt(place)))),
        Some(x) => take_cluster::<P>(alloc, s, os, least, place, &x, ws, behind),
    }
}

/// Takes a heading of a block whose loci are the constants from `least` on, with its conditions, behind which a token stands at the place.
/// Its obligations are put behind the others.
///
/// # Errors
/// The first refusal in the order of the reading: of its parts; `BadLoci` at its first token where a locus doesn't occur in it; `TooLarge`
/// there where what it owes is beyond the limits; of its conditions, and `ConditionMissing` behind them; `NotBuilt` for a reduction and an
/// identification. Or there was no memory.
pub fn take_heading<P: ProveSteps>(
    alloc: Global,
    s: &mut Standing,
    os: &mut Obligations,
    least: u32,
    t: &ClusterTree,
    ws: &[ConditionTree],
    behind: Place,
) -> Result<(), ItemFault>
    ensures { OnTaken result (Brings (Heads least s.old t.now ws.now behind) s.new os.old os.new) }
{
    match read_heading(alloc, s, least, t) {
        Err(fault) => Err(of_reading(fault)),
        Ok(o) => take_read::<P>(alloc, s, os, least, t, o, ws, behind),
    }
}
