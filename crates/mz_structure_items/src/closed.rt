//! Whether a notation stands under its loci alone.
ghost use Rattle.std.specs.Prelude.{◌≡◌, ◌&&◌, ◌+◌, length, IfOk};
ghost use Rattle.std.specs.List.{list_all};
ghost use Rattle.mz_core.specs.Closed.{term_under, adjective_under, type_under, loci_under, loci_closed};
ghost use Rattle.mz_items.specs.Closed.{is_locus};

use mz_core::adjective::Adjective;
use mz_core::adjectives::Adjectives;
use mz_core::soft_type::SoftType;
use mz_logic::term::{Term, TermNode, Terms};
use std::alloc::AllocError;

/// Whether the term has no constant, and each index in it is below n.
#[cycle(under)]
#[tactic(auto, using(crate::proofs::ClosedLemmas::told_args))]
pub fn term_under(t: &Term, n: u32) -> bool
    ensures { result ≡ term_under n t.now }
{
    match &t.node {
        TermNode::Bound(index) => *index < n,
        TermNode::Const(_) => false,
        TermNode::App(_, ts) => terms_under(ts, n),
    }
}

#[cycle(under)]
fn terms_under(ts: &Terms, n: u32) -> bool
    ensures { result ≡ list_all (term_under n) ts.now }
{
    for t in &ts.items {
        if !term_under(t, n) {
            return false;
        }
    }
    true
}

fn adjective_under(a: &Adjective, n: u32) -> bool
    ensures { result ≡ adjective_under n a.now }
{
    terms_under(&a.args, n)
}

fn adjectives_under(xs: &Adjectives, n: u32) -> bool
    ensures { result ≡ list_all (adjective_under n) xs.now }
{
    for a in &xs.items {
        if !adjective_under(a, n) {
            return false;
        }
    }
    true
}

fn type_under(ty: &SoftType, n: u32) -> bool
    ensures { result ≡ type_under n ty.now }
{
    adjectives_under(&ty.adjectives, n) && terms_under(&ty.radix.args, n)
}

/// Whether each of the types stands under those before it, and under so many more. More than 4,294,967,295 are as no memory.
fn loci_under(tys: &[SoftType], n: u32) -> Result<bool, AllocError>
    ensures { IfOk result (λ b. b ≡ loci_under n tys.now) }
{
    match tys {
        [] => Ok(true),
        [ty, others @ ..] => {
            if !type_under(ty, n) {
                return Ok(false);
            }
            let more = n.checked_add(1).ok_or(AllocError)?;
            loci_under(others, more)
        }
    }
}

/// Whether each of the types stands under those before it alone.
pub fn loci_closed(tys: &[SoftType]) -> Result<bool, AllocError>
    ensures { IfOk result (λ b. b ≡ loci_closed tys.now) }
{
    loci_under(tys, 0)
}

fn is_locus(n: usize, place: u64) -> bool
    ensures { result ≡ is_locus n place }
{
    place < n as u64
}

/// Whether these are places of so many loci.
pub fn are_loci(n: usize, places: &[u64]) -> bool
    ensures { result ≡ list_all (is_locus n) places.now }
{
    for place in places {
        if !is_locus(n, *place) {
            return false;
        }
    }
    true
}
