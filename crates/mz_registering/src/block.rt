//! Blocks of registrations, taken.
ghost use Rattle.std.specs.Prelude.{◌≡◌, IfOk};
ghost use Rattle.mz_context.specs.Context.{next};
ghost use Rattle.mz_taken.specs.Answers.{OnTaken, Brings};
ghost use Rattle.mz_taken.specs.OneByOne.{OneByOne};
ghost use Rattle.mz_registered.specs.Blocks.{first_of_part, first_of_parts, with_places, TakesPart, TakesBlock};

use crate::heading::{first_of_cluster, take_heading};
use mz_base::place::Place;
use mz_let::loci::take_let;
use mz_loci::loci::end_loci;
use mz_obligations::obligation::Obligations;
use mz_standing::standing::Standing;
use mz_taken::item_fault::ItemFault;
use mz_tree_item::registration::{RegistrationPartTree, RegistrationTree};
use mz_walk::prove_steps::ProveSteps;
use std::alloc::{AllocError, Global};

fn first_of_part(p: &RegistrationPartTree) -> Place
    ensures { result ≡ first_of_part p.now }
{
    match p {
        RegistrationPartTree::Let(t) => t.let_,
        RegistrationPartTree::Cluster { cluster, .. } => first_of_cluster(cluster),
    }
}

fn first_of_parts(end: Place, ps: &[RegistrationPartTree]) -> Place
    ensures { result ≡ first_of_parts end ps.now }
{
    match ps.split_first() {
        None => end,
        Some((p, _)) => first_of_part(p),
    }
}

/// Takes a part of a block whose loci are the constants from `least` on; behind it a token stands at the place.
fn take_part<P: ProveSteps>(
    alloc: Global,
    s: &mut Standing,
    os: &mut Obligations,
    least: u32,
    p: &RegistrationPartTree,
    behind: Place,
) -> Result<(), ItemFault>
    ensures { OnTaken result (Brings (TakesPart least s.old (p.now, behind)) s.new os.old os.new) }
{
    match p {
        RegistrationPartTree::Let(t) => take_let(alloc, s, least, t),
        RegistrationPartTree::Cluster {
            cluster,
            conditions,
        } => take_heading::<P>(
            alloc,
            s,
            os,
            least,
            cluster,
            conditions.items.as_slice(),
            behind,
        ),
    }
}

/// Takes the parts of a block, behind which an `end` stands at the place.
fn take_parts<P: ProveSteps>(
    alloc: Global,
    s: &mut Standing,
    os: &mut Obligations,
    least: u32,
    end: Place,
    ps: &[RegistrationPartTree],
) -> Result<(), ItemFault>
    ensures { OnTaken result (Brings (OneByOne (TakesPart least) s.old (with_places end ps.now)) s.new os.old os.new) }
{
    let mut rest = ps;
    while let Some((p, others)) = rest.split_first() {
        let behind = first_of_parts(end, others);
        match take_part::<P>(alloc, s, os, least, p, behind) {
            Ok(()) => rest = others,
            Err(fault) => return Err(fault),
        }
    }
    Ok(())
}

/// Takes all parts of a block.
fn take_all<P: ProveSteps>(
    alloc: Global,
    s: &mut Standing,
    os: &mut Obligations,
    least: u32,
    tree: &RegistrationTree,
) -> Result<(), ItemFault>
    ensures { OnTaken result (Brings (OneByOne (TakesPart least) s.old (with_places tree.now.end tree.now.parts)) s.new os.old os.new) }
{
    take_parts::<P>(alloc, s, os, least, tree.end, tree.parts.items.as_slice())
}

/// The number of the next constant. More than 4,294,967,295 are as no memory.
fn next_of(s: &Standing) -> Result<u32, AllocError>
    ensures { IfOk result (λ n. n ≡ next s.now.context) }
{
    u32::try_from(s.context.next()).map_err(|_| AllocError)
}

/// Takes a block of registrations. Its obligations are put behind the others.
///
/// # Errors
/// The first refusal in the order of the text, with its place; or there was no memory.
pub fn take_block<P: ProveSteps>(
    alloc: Global,
    s: &mut Standing,
    os: &mut Obligations,
    tree: &RegistrationTree,
) -> Result<(), ItemFault>
    ensures { OnTaken result (Brings (TakesBlock s.old tree.now) s.new os.old os.new) }
{
    let least = next_of(s)?;
    match take_all::<P>(alloc, s, os, least, tree) {
        Err(fault) => Err(fault),
        Ok(()) => {
            end_loci(&mut s.context, least);
            Ok(())
        }
    }
}
