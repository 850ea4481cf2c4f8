//! Obligations judged, each by itself, in several threads where there are many.
ghost use Rattle.std.specs.Prelude.{◌≡◌, ◌++◌, IfOk, OnOk, flat_map};
ghost use Rattle.std.specs.List.{list_all};
ghost use Rattle.mz_judged.specs.Found.{is_found, fault_in, AreFound};
ghost use Rattle.mz_judged.specs.Judged.{IsJudged, AreJudged};

use crate::judge::judge;
use mz_core::fault::{Fault, Faults};
use mz_ground::clauses::Clauses;
use mz_obligations::obligation::{Obligation, Obligations};
use rayon::prelude::*;
use std::alloc::{AllocError, Global};
use std::thread::Threads;

/// How few obligations are worth a thread of their own.
const FEW: usize = 8;

/// Into how many pieces the obligations of an article are divided at most, so that articles which are checked at once have
/// a bounded number of threads.
const MOST_PIECES: usize = 8;

/// How many obligations a piece has at the least, of so many.
fn least_piece(count: usize) -> usize {
    (count / MOST_PIECES).max(FEW)
}

/// What is found of each, in their order.
fn find_each(
    rt: &(impl Threads + Sync),
    alloc: Global,
    clauses: &Clauses,
    obligations: &[Obligation],
) -> Result<Vec<Result<Option<Fault>, AllocError>>, AllocError>
    ensures { IfOk result (λ v. AreFound clauses.now obligations.now v.items) }
{
    obligations
        .par_iter()
        .with_min_len(least_piece(obligations.len()))
        .map(
            |obligation: &Obligation| -> Result<Option<Fault>, AllocError>
                ensures { IfOk result (IsJudged clauses.entry.now obligation.now) }
            { judge(alloc, clauses, obligation) },
        )
        .collect(rt, alloc)
}

fn is_found(found: &Result<Option<Fault>, AllocError>) -> bool
    ensures { result ≡ is_found found.now }
{
    found.is_ok()
}

fn are_found(found: &[Result<Option<Fault>, AllocError>]) -> bool
    ensures { result ≡ list_all is_found found.now }
{
    found.iter().all(|f| is_found(f))
}

fn push_fault(
    found: &Result<Option<Fault>, AllocError>,
    faults: &mut Faults,
) -> Result<(), AllocError>
    ensures { OnOk result (faults.new ≡ faults.old ++ fault_in found.now) }
{
    match found {
        Ok(Some(fault)) => faults.push(*fault),
        _ => Ok(()),
    }
}

#[tactic(auto, using(crate::proofs::PushLemmas::fault_rules))]
fn push_faults(
    found: &[Result<Option<Fault>, AllocError>],
    faults: &mut Faults,
) -> Result<(), AllocError>
    ensures { OnOk result (faults.new ≡ faults.old ++ flat_map fault_in found.now) }
{
    for f in found {
        push_fault(f, faults)?;
    }
    Ok(())
}

/// The faults of the obligations of an article, in their order: each is judged by the article's clauses, of which those
/// that stood above its place count. Threads that are started have ended when it returns.
///
/// # Errors
/// `AllocError` where there wasn't enough memory.
#[tactic(auto, using(crate::proofs::JudgeLemmas::all_judged))]
pub fn judge_all(
    rt: &(impl Threads + Sync),
    alloc: Global,
    clauses: &Clauses,
    obligations: &Obligations,
) -> Result<Faults, AllocError>
    ensures { IfOk result (AreJudged clauses.now obligations.now) }
{
    let found = find_each(rt, alloc, clauses, obligations.items.as_slice())?;
    if !are_found(found.as_slice()) {
        return Err(AllocError);
    }
    let mut faults = Faults::new(alloc);
    push_faults(found.as_slice(), &mut faults)?;
    Ok(faults)
}
