//! One obligation judged.
ghost use Rattle.std.specs.Prelude.{◌≡◌, ◌++◌, IfOk, OnOk, take};
ghost use Rattle.mz_by.specs.Verdict.{IsVerdict};
ghost use Rattle.mz_obligations.specs.declared.obligation.Duty.TheVariants.{By};
ghost use Rattle.mz_judged.specs.Judged.{IsJudged};

use crate::told::{scheme_told, told};
use mz_by::by::{ByVerdict, by, by_first};
use mz_core::fault::Fault;
use mz_ground::clause::Clause;
use mz_ground::clauses::Clauses;
use mz_nf::problem::Problem;
use mz_obligations::obligation::{Duty, Obligation};
use std::alloc::{AllocError, Global};

#[tactic(auto, using(crate::proofs::PushLemmas::copy_rules))]
fn push_copies(alloc: Global, clauses: &[Clause], out: &mut Clauses) -> Result<(), AllocError>
    ensures { OnOk result (out.new ≡ out.old ++ clauses.now) }
{
    for clause in clauses {
        out.push(clause.copy(alloc)?)?;
    }
    Ok(())
}

/// The first `count` clauses and the others.
fn joined(
    alloc: Global,
    clauses: &Clauses,
    count: usize,
    others: &Clauses,
) -> Result<Clauses, AllocError>
    ensures { IfOk result (λ cs. cs ≡ take count clauses.now ++ others.now) }
{
    let mut out = Clauses::new(alloc);
    push_copies(alloc, clauses.first(count), &mut out)?;
    push_copies(alloc, others.as_slice(), &mut out)?;
    Ok(out)
}

/// The verdict on a problem by the first `count` clauses and the others.
#[tactic(auto, using(crate::proofs::JudgeLemmas::without_others))]
fn decide_by(
    alloc: Global,
    problem: &Problem,
    clauses: &Clauses,
    count: usize,
    others: &Clauses,
) -> Result<ByVerdict, AllocError>
    ensures { IfOk result (IsVerdict problem.now (take count clauses.now ++ others.now)) }
{
    if others.items.is_empty() {
        return by_first(alloc, problem, clauses, count);
    }
    let all = joined(alloc, clauses, count, others)?;
    by(alloc, problem, &all)
}

/// The fault where the obligation's problem isn't closed, by the clauses for it.
#[tactic(auto, using(crate::proofs::JudgeLemmas::decided_so))]
fn judge_problem(
    alloc: Global,
    clauses: &Clauses,
    obligation: &Obligation,
    problem: &Problem,
) -> Result<Option<Fault>, AllocError>
    ensures { IfOk result (λ f. obligation.now.duty ≡ By problem.now → IsJudged clauses.now obligation.now f) }
{
    let verdict = decide_by(
        alloc,
        problem,
        clauses,
        obligation.extent.clauses,
        &obligation.letters,
    )?;
    Ok(told(obligation.place, verdict))
}

/// The fault of an obligation, by the clauses of its article, of which those that stood above its place count; none where
/// it is met.
#[tactic(auto, using(crate::proofs::JudgeLemmas::followed_so))]
pub fn judge(
    alloc: Global,
    clauses: &Clauses,
    obligation: &Obligation,
) -> Result<Option<Fault>, AllocError>
    ensures { IfOk result (IsJudged clauses.now obligation.now) }
{
    match &obligation.duty {
        Duty::By(problem) => judge_problem(alloc, clauses, obligation, problem),
        Duty::From(verdict) => Ok(scheme_told(obligation.place, *verdict)),
    }
}
