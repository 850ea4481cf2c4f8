//! What an iterative equality t0 = t1 .= t2 .. .= tn says.
ghost use Rattle.std.specs.Prelude.{◌≡◌, map, Some, IfOk};
ghost use Rattle.mz_core.specs.Statement.{Eq};
ghost use Rattle.mz_names.specs.Closing.{for_all};
ghost use Rattle.mz_steps.specs.Equalities.{last_of};
ghost use Rattle.mz_walk.specs.Within.{kept_first, all_kept};
ghost use Rattle.mz_walk.specs.Compact.{equalities_closed, listed, EqualityMade};

use mz_base::place::Place;
use mz_core::statement::{Statement, StatementNode};
use mz_core::statements::Statements;
use mz_formulas::sentence::Sentence;
use mz_justified::proof_fault::ProofRefusal;
use mz_logic::term::{Term, Terms};
use mz_names::quantifiers::for_all;
use mz_names::refusal::Refusal;
use mz_names::variable::Variables;
use mz_sizes::keeps::statement_keeps;
use mz_steps::equalities::neighbours;
use mz_walk::compact::Said;
use std::alloc::{AllocError, Global};

fn last_of<'a>(first: &'a Term, others: &'a [Term]) -> &'a Term
    ensures { result.now ≡ last_of first.now others.now }
{
    let mut t = first;
    for u in others {
        t = u;
    }
    t
}

fn equation(alloc: Global, t: &Term, u: &Term) -> Result<Statement, AllocError>
    ensures { IfOk result (λ s. s ≡ Eq t.now u.now) }
{
    let t = t.copy(alloc)?;
    let u = u.copy(alloc)?;
    Ok(Statement::equation(t, u))
}

/// The statements for all objects of the variables' types, where the variables are the constants from n on. None where one of
/// them is beyond the limits.
#[tactic(auto, using(crate::proofs::EqualityLemmas::closed_rules))]
pub fn all_closed(
    alloc: Global,
    n: u32,
    vs: &Variables,
    ss: &Statements,
) -> Result<Option<Statements>, AllocError>
    ensures { IfOk result (λ o. o ≡ all_kept (map (for_all n vs.now) ss.now)) }
{
    let mut out = Statements::new(alloc);
    let mut rest = ss.items.as_slice();
    while let Some((s, others)) = rest.split_first() {
        let s = s.copy(alloc)?;
        let s = for_all(alloc, n, vs.items.as_slice(), s)?;
        if !statement_keeps(&s) {
            return Ok(None);
        }
        out.push(s)?;
        rest = others;
    }
    Ok(Some(out))
}

/// What the equality states, for all objects of the variables' types, in front of the equations of its further sides. None
/// where it is beyond the limits.
#[tactic(auto, using(crate::proofs::EqualityLemmas::front_rules))]
fn stated_first(
    alloc: Global,
    n: u32,
    vs: &Variables,
    s: Statement,
    further: Statements,
) -> Result<Option<Said>, AllocError>
    ensures { IfOk result (λ o. listed o ≡ kept_first (for_all n vs.now s) (Some further)) }
{
    let states = for_all(alloc, n, vs.items.as_slice(), s)?;
    if !statement_keeps(&states) {
        return Ok(None);
    }
    Ok(Some(Said { states, further }))
}

/// What the equality says for all objects of the variables' types. None where some of it is beyond the limits.
#[tactic(auto, using(crate::proofs::EqualityLemmas::said_rules))]
fn equalities_closed(
    alloc: Global,
    n: u32,
    vs: &Variables,
    t: &Term,
    u: &Term,
    us: &Terms,
) -> Result<Option<Said>, AllocError>
    ensures { IfOk result (λ o. listed o ≡ all_kept (equalities_closed n vs.now t.now u.now us.now)) }
{
    let more = neighbours(alloc, u, us.items.as_slice())?;
    match all_closed(alloc, n, vs, &more)? {
        None => Ok(None),
        Some(further) => {
            let s = equation(alloc, t, last_of(u, us.items.as_slice()))?;
            let o = stated_first(alloc, n, vs, s, further)?;
            Ok(o)
        }
    }
}

/// What is said by a sentence with further sides: it has to be an equation, and all that is made of it has to keep the limits.
#[tactic(auto, using(crate::proofs::EqualityLemmas::made_rules))]
pub fn equality_made(
    alloc: Global,
    first: Place,
    n: u32,
    s: &Sentence,
    us: &Terms,
) -> Result<Result<Said, ProofRefusal>, AllocError>
    ensures { IfOk result (λ o. EqualityMade first n s.now us.now o) }
{
    match &s.inner.node {
        StatementNode::Eq(t, u) => match equalities_closed(alloc, n, &s.variables, t, u, us)? {
            Some(said) => Ok(Ok(said)),
            None => Ok(Err(ProofRefusal::Resolve(Refusal::TooLarge(first)))),
        },
        _ => Ok(Err(ProofRefusal::StepNoFit(first))),
    }
}
