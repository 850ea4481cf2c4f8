//! Loci by their names, and whether the visible ones fix the others.
ghost use Rattle.std.specs.Prelude.{◌≡◌, nat_eq, IfOk};
ghost use Rattle.std.specs.List.{list_any, list_all};
ghost use Rattle.mz_items.specs.Closed.{are_distinct, differs};
ghost use Rattle.mz_loci.specs.Loci.{locus_named, occurs_in_locus, are_fixed};

use mz_context::constants::Constant;
use mz_context::gather::occurs_in_type;
use mz_names::names::number_of;
use std::alloc::AllocError;

/// The place, from 0, of the latest locus with the name, where there is one.
pub fn locus_named(ks: &[Option<Constant>], name: &[u8]) -> Option<usize>
    ensures { result ≡ locus_named ks.now name.now }
{
    match number_of(ks, name) {
        Some(n) => Some(n.saturating_sub(1)),
        None => None,
    }
}

fn occurs_in_locus(k: &Option<Constant>, c: u32) -> bool
    ensures { result ≡ occurs_in_locus c k.now }
{
    match k {
        Some(k) => occurs_in_type(&k.ty, c),
        None => false,
    }
}

/// Whether the constant occurs in the type of one of these loci.
fn occurs_behind(ks: &[Option<Constant>], c: u32) -> bool
    ensures { result ≡ list_any (occurs_in_locus c) ks.now }
{
    ks.iter().any(|k| occurs_in_locus(k, c))
}

fn is_visible(visible: &[u64], place: u64) -> bool
    ensures { result ≡ list_any (nat_eq place) visible.now }
{
    visible.iter().any(|n| place == *n)
}

/// Whether each of the loci, the constants from `least` on, is visible, or is in the type of a later one, which is so in turn. The visible
/// ones are given by their places, from 0. More than 4,294,967,295 constants are as no memory.
pub fn are_fixed(ks: &[Option<Constant>], least: u32, visible: &[u64]) -> Result<bool, AllocError>
    ensures { IfOk result (λ b. b ≡ are_fixed least visible.now 0 ks.now) }
{
    let mut place = 0;
    let mut rest = ks;
    while let Some((_k, others)) = rest.split_first() {
        let c = least.checked_add(place).ok_or(AllocError)?;
        if !is_visible(visible, place as u64) && !occurs_behind(others, c) {
            return Ok(false);
        }
        place = place.checked_add(1).ok_or(AllocError)?;
        rest = others;
    }
    Ok(true)
}

fn differs(k: u64, j: u64) -> bool
    ensures { result ≡ differs k j }
{
    k != j
}

fn all_differ(k: u64, js: &[u64]) -> bool
    ensures { result ≡ list_all (differs k) js.now }
{
    js.iter().all(|j| differs(k, *j))
}

/// Whether no number stands twice.
pub fn are_distinct(ns: &[u64]) -> bool
    ensures { result ≡ are_distinct ns.now }
{
    let mut rest = ns;
    while let Some((n, others)) = rest.split_first() {
        if !all_differ(*n, others) {
            return false;
        }
        rest = others;
    }
    true
}
