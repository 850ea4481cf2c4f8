//! The disjuncts of a problem, or that they are too many.
ghost use Rattle.std.specs.Prelude.{◌≡◌, ◌≤◌, length, IfOk, IfErr};
ghost use Rattle.mz_nf.specs.Splits.{AreDisjuncts};
ghost use Rattle.mz_nf.specs.Count.{count_of};
ghost use Rattle.mz_nf.specs.Refuses.{Refuses};

use crate::count::count_of;
use crate::nf_fault::NfFault;
use crate::problem::Problem;
use crate::split::split_problem;
use mz_logic::disjuncts::Disjuncts;
use std::alloc::Global;

/// The most disjuncts that a problem may have.
const LIMIT: u64 = 1024;

/// The disjuncts of a problem: its premises, in their order, and its negated conclusion are one
/// conjunction, which is split as `docs/PROOFS.md` says.
///
/// Refused exactly where the problem has more than 1,024 disjuncts, equal ones included. They are
/// counted before any is made and before any constant is taken. Where the numbers of new constants
/// are used up, this is as want of memory.
#[tactic(auto, using(crate::proofs::OneListLemmas::disjuncts_rules))]
pub fn disjuncts(alloc: Global, p: &Problem) -> Result<Disjuncts, NfFault>
    ensures disjuncts { IfOk result (λ ds. AreDisjuncts p.now ds) }
    ensures count { IfOk result (λ ds. length ds ≡ count_of p.now) }
    ensures few { IfOk result (λ ds. length ds ≤ 1024) }
    ensures refused { IfErr result (λ e. Refuses p.now e) }
{
    let count = count_of(p);
    if count > LIMIT {
        return Err(NfFault::TooManyDisjuncts { count });
    }
    if count == 0 {
        return Ok(Disjuncts::new(alloc));
    }
    let split = split_problem(alloc, p)?;
    Ok(split)
}
