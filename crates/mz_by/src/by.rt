//! The decision of a problem.
ghost use Rattle.std.specs.Prelude.{◌≡◌, ◌<◌, ◌≤◌, ◌^◌, IfOk, MatchOption, length, suc, take};
ghost use Rattle.mz_by.specs.Laws.{IsDerived};
ghost use Rattle.mz_ground.specs.ClauseFormula.{HaveNoConstants};
ghost use Rattle.mz_by.specs.Verdict.{IsClosedWithin, Decides, DecidesAll, IsVerdict};
ghost use Rattle.mz_ground.specs.Ground.{IsGroundWithinLimits};

use crate::examine::{Examination, examine};
use mz_base::limit::Limit;
use mz_classes::close_classes::close_classes;
use mz_ground::clause::Clause;
use mz_ground::clauses::Clauses;
use mz_ground::fact_set::FactSet;
use mz_ground::ground::ground;
use mz_ground::ground_fault::GroundFault;
use mz_ground::ground_part::Ground;
use mz_logic::disjunct::Disjunct;
use mz_logic::disjuncts::Disjuncts;
use mz_nf::disjuncts::disjuncts;
use mz_nf::nf_fault::NfFault;
use mz_nf::problem::Problem;
use std::alloc::{AllocError, Global};

/// Whether a conclusion is obvious from its premises.
#[derive(Clone, Copy, Debug, PartialEq, Eq)]
pub enum ByVerdict {
    /// It is.
    Closed,
    /// It isn't: this disjunct, counted from 1, is the first that isn't closed.
    Open { disjunct: u32 },
    /// A limit was passed, by this number.
    Over { limit: Limit, number: u64 },
}

/// Decides a problem by clauses (`docs/LANGUAGE.md`, "What `by` can do").
///
/// It is closed exactly where each of its disjuncts is closed within the limits; else it is over where it has more
/// than 1,024 disjuncts, and else the first disjunct that isn't closed decides. The only other answer is want of
/// memory. Where it is closed and the clauses have no constants, the conclusion derives from the premises and the
/// clauses.
pub fn by(alloc: Global, p: &Problem, clauses: &Clauses) -> Result<ByVerdict, AllocError>
    ensures verdict { IfOk result (λ v. IsVerdict p.now clauses.now v) }
    ensures derived { IfOk result (λ v. v ≡ ByVerdict.Closed → HaveNoConstants clauses.now → IsDerived p.now clauses.now) }
{
    let verdict = decide_problem(alloc, p, clauses.as_slice())?;
    Ok(verdict)
}

/// Decides a problem by the first `count` of the clauses, as `by` does by all of them; where there are no more, by
/// all. None is copied.
pub fn by_first(
    alloc: Global,
    p: &Problem,
    clauses: &Clauses,
    count: usize,
) -> Result<ByVerdict, AllocError>
    ensures verdict { IfOk result (λ v. IsVerdict p.now (take count clauses.now) v) }
    ensures derived { IfOk result (λ v. v ≡ ByVerdict.Closed → HaveNoConstants (take count clauses.now) → IsDerived p.now (take count clauses.now)) }
{
    let verdict = decide_problem(alloc, p, clauses.first(count))?;
    Ok(verdict)
}

/// The verdict on a problem.
fn decide_problem(alloc: Global, p: &Problem, clauses: &[Clause]) -> Result<ByVerdict, AllocError>
    ensures { IfOk result (λ v. IsVerdict p.now clauses.now v) }
{
    match disjuncts(alloc, p) {
        Ok(ds) => {
            let verdict = decide_all(alloc, &ds, clauses)?;
            Ok(verdict)
        }
        Err(NfFault::TooManyDisjuncts { count }) => Ok(ByVerdict::Over {
            limit: Limit::Disjuncts,
            number: count,
        }),
        Err(NfFault::Memory) => Err(AllocError),
    }
}

/// The verdict on the disjuncts of a problem.
fn decide_all(alloc: Global, ds: &Disjuncts, clauses: &[Clause]) -> Result<ByVerdict, AllocError>
    requires { length ds.now ≤ 1024 }
    ensures { IfOk result (λ v. DecidesAll clauses.now 1 ds.now v) }
{
    let mut number = 1;
    for d in &ds.items {
        match decide(alloc, d, clauses, number)? {
            Some(verdict) => return Ok(verdict),
            None => number += 1,
        }
    }
    Ok(ByVerdict::Closed)
}

/// The verdict that a disjunct gives, or none where it is closed.
fn decide(
    alloc: Global,
    d: &Disjunct,
    clauses: &[Clause],
    number: u32,
) -> Result<Option<ByVerdict>, AllocError>
    ensures { IfOk result (λ o. MatchOption o (IsClosedWithin d.now clauses.now) (Decides d.now clauses.now number)) }
{
    match ground(alloc, d, clauses) {
        Ok(g) => decide_ground(alloc, d, clauses, &g, number),
        Err(GroundFault::TooManyTerms) => Ok(Some(ByVerdict::Over {
            limit: Limit::Terms,
            number: 4097,
        })),
        Err(GroundFault::TooManyAtoms) => Ok(Some(ByVerdict::Over {
            limit: Limit::Atoms,
            number: 16385,
        })),
        Err(GroundFault::Memory) => Err(AllocError),
    }
}

/// The same, with its ground part.
fn decide_ground(
    alloc: Global,
    d: &Disjunct,
    clauses: &[Clause],
    g: &Ground,
    number: u32,
) -> Result<Option<ByVerdict>, AllocError>
    requires { IsGroundWithinLimits d.now clauses.now g.now }
    ensures { IfOk result (λ o. MatchOption o (IsClosedWithin d.now clauses.now) (Decides d.now clauses.now number)) }
{
    let facts = close_classes(alloc, g, d, clauses)?;
    if facts.contradictory() {
        return Ok(None);
    }
    match examine(alloc, &facts, d)? {
        Examination::Refuted => Ok(None),
        Examination::Over { work } => Ok(Some(ByVerdict::Over {
            limit: Limit::Work,
            number: work,
        })),
        Examination::Open => Ok(Some(ByVerdict::Open { disjunct: number })),
    }
}
