//! Parts of a thesis, and what it assumes, beside those of a step's statement.
ghost use Rattle.std.specs.Prelude.{◌≡◌, ◌↔◌, ◌∷◌, [], drop, length, IfOk, IsTrue};
ghost use Rattle.mz_logic.specs.Same.{IsSame};
ghost use Rattle.mz_core.specs.Statement.{Not};
ghost use Rattle.mz_core.specs.Erasure.{erase};
ghost use Rattle.mz_thesis.specs.Rows.{BeginSame, antecedents, rest_behind};
ghost use Rattle.mz_core.specs.Parts.{parts, conjunction};

use mz_core::erasure::erase;
use mz_core::parts::{conjunction, parts};
use mz_core::statement::{Statement, StatementNode};
use mz_core::statements::Statements;
use mz_logic::sameness::same;
use std::alloc::{AllocError, Global};

fn are_same(alloc: Global, s: &Statement, t: &Statement) -> Result<bool, AllocError>
    ensures { IfOk result (λ b. IsTrue b ↔ IsSame (erase s.now) (erase t.now)) }
{
    let f = erase(alloc, s)?;
    let g = erase(alloc, t)?;
    Ok(same(&f, &g))
}

/// Whether the statements are the same as the first of the others, up to association of `&` and double negation.
#[tactic(auto, using(crate::proofs::PartLemmas::begin_rules))]
pub fn begin_same(alloc: Global, ss: &[Statement], ts: &[Statement]) -> Result<bool, AllocError>
    ensures { IfOk result (λ b. IsTrue b ↔ BeginSame ss.now ts.now) }
{
    let count = ss.len();
    if count > ts.len() {
        return Ok(false);
    }
    for i in 0..count {
        if !are_same(alloc, &ss[i], &ts[i])? {
            return Ok(false);
        }
    }
    Ok(true)
}

/// What a thesis assumes: the parts of what it negates, or the negation of a thesis that is none.
pub fn antecedents(alloc: Global, thesis: &Statement) -> Result<Statements, AllocError>
    ensures { IfOk result (λ ss. ss ≡ antecedents thesis.now) }
{
    match &thesis.node {
        StatementNode::Not(s) => parts(alloc, s),
        _ => negation_alone(alloc, thesis),
    }
}

fn negation_alone(alloc: Global, s: &Statement) -> Result<Statements, AllocError>
    ensures { IfOk result (λ ss. ss ≡ Not s.now ∷ []) }
{
    let s = s.copy(alloc)?;
    let s = Statement::not(alloc, s)?;
    let mut out = Statements::new(alloc);
    out.push(s)?;
    Ok(out)
}

fn copies(alloc: Global, ss: &[Statement]) -> Result<Statements, AllocError>
    ensures { IfOk result (λ ts. ts ≡ ss.now) }
{
    let mut out = Vec::new(alloc);
    for s in ss {
        out.push(s.copy(alloc)?)?;
    }
    Ok(Statements { items: out })
}

/// The conjunction of the statements behind as many as `s` has parts; truth where none is left.
pub fn rest_behind(alloc: Global, s: &Statement, ts: &Statements) -> Result<Statement, AllocError>
    ensures { IfOk result (λ r. r ≡ rest_behind s.now ts.now) }
{
    let ps = parts(alloc, s)?;
    let count = ps.items.len();
    let rest = rest_from(alloc, ts, count)?;
    conjunction(alloc, &rest)
}

fn rest_from(alloc: Global, ts: &Statements, from: usize) -> Result<Statements, AllocError>
    ensures { IfOk result (λ rs. rs ≡ drop from ts.now) }
{
    if from >= ts.items.len() {
        return Ok(Statements::new(alloc));
    }
    copies(alloc, &ts.items[from..])
}
