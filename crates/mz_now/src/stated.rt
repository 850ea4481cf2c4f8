//! What a `now` states by its steps, within the limits on nodes and depth.
ghost use Rattle.std.specs.Prelude.{◌≡◌, IfOk};
ghost use Rattle.mz_core.specs.Statement.{For};
ghost use Rattle.mz_core.specs.StatementForms.{implication};
ghost use Rattle.mz_core.specs.Abstraction.{statement_over};
ghost use Rattle.mz_core.specs.TypeSubstitution.{statement_at};
ghost use Rattle.mz_core.specs.Parts.{conjunction};
ghost use Rattle.mz_now.specs.Stated.{with_term};
ghost use Rattle.mz_now.specs.Kept.{alone_kept, in_front_kept, replaced_kept, kept_with, whole_kept, IsStated};

use crate::now_part::{NowPart, NowParts};
use mz_core::abstraction::statement_over;
use mz_core::parts::conjunction;
use mz_core::soft_type::SoftType;
use mz_core::statement::Statement;
use mz_core::statement_forms::implication;
use mz_core::statements::Statements;
use mz_core::type_substitution::statement_at;
use mz_logic::term::Term;
use mz_sizes::keeps::statement_keeps;
use std::alloc::{AllocError, Global};

/// The statement with the term for the constant.
fn replaced(alloc: Global, s: &Statement, c: u32, t: &Term) -> Result<Statement, AllocError>
    ensures { IfOk result (λ r. r ≡ statement_at (statement_over c 0 s.now) t.now) }
{
    let over = Box::new(alloc, statement_over(alloc, s, c, 0)?)?;
    statement_at(alloc, &over, t)
}

fn with_term(alloc: Global, p: &NowPart, s: Statement) -> Result<Statement, AllocError>
    ensures { IfOk result (λ r. r ≡ with_term p.now s) }
{
    match p {
        NowPart::Quantifier { .. } => Ok(s),
        NowPart::Antecedent(_) => Ok(s),
        NowPart::Conjunct(_) => Ok(s),
        NowPart::Defined { constant, term } => replaced(alloc, &s, *constant, term),
        NowPart::Hidden { .. } => Ok(s),
    }
}

/// The statement alone, where it keeps the limits.
#[tactic(auto, using(crate::proofs::StatedLemmas::alone_rules))]
fn alone(alloc: Global, s: Statement) -> Result<Option<Statements>, AllocError>
    ensures { IfOk result (λ o. o ≡ alone_kept s) }
{
    if !statement_keeps(&s) {
        return Ok(None);
    }
    let mut ss = Statements::new(alloc);
    ss.push(s)?;
    Ok(Some(ss))
}

fn quantified(
    alloc: Global,
    constant: u32,
    ty: &SoftType,
    ss: &Statements,
) -> Result<Option<Statements>, AllocError>
    ensures { IfOk result (λ o. o ≡ alone_kept (For ty.now (statement_over constant 0 (conjunction ss.now)))) }
{
    let s = Box::new(alloc, conjunction(alloc, ss)?)?;
    let body = Box::new(alloc, statement_over(alloc, &s, constant, 0)?)?;
    let ty = ty.copy(alloc)?;
    let s = Statement::each(alloc, ty, Box::into_inner(body))?;
    alone(alloc, s)
}

fn implied(alloc: Global, s: &Statement, ss: &Statements) -> Result<Option<Statements>, AllocError>
    ensures { IfOk result (λ o. o ≡ alone_kept (implication s.now (conjunction ss.now))) }
{
    let t = Box::new(alloc, conjunction(alloc, ss)?)?;
    let s = s.copy(alloc)?;
    let s = implication(alloc, s, Box::into_inner(t))?;
    alone(alloc, s)
}

#[tactic(auto, using(crate::proofs::StatedLemmas::front_rules))]
fn in_front(alloc: Global, s: &Statement, ss: Statements) -> Result<Option<Statements>, AllocError>
    ensures { IfOk result (λ o. o ≡ in_front_kept s.now ss) }
{
    let mut out = ss;
    if out.items.len() >= 512 {
        return Ok(None);
    }
    let s = s.copy(alloc)?;
    out.items.insert(0, s)?;
    Ok(Some(out))
}

#[tactic(auto, using(crate::proofs::StatedLemmas::replaced_rules))]
fn all_replaced(
    alloc: Global,
    p: &NowPart,
    ss: &Statements,
) -> Result<Option<Statements>, AllocError>
    ensures { IfOk result (λ o. o ≡ replaced_kept p.now ss.now) }
{
    let mut out = Statements::new(alloc);
    for s in &ss.items {
        let s = s.copy(alloc)?;
        let t = with_term(alloc, p, s)?;
        if !statement_keeps(&t) {
            return Ok(None);
        }
        out.push(t)?;
    }
    Ok(Some(out))
}

/// The others with what the part states in front of them; none where that passes the limits.
#[tactic(auto, using(crate::proofs::StatedLemmas::part_rules))]
fn with_part(alloc: Global, p: &NowPart, ss: Statements) -> Result<Option<Statements>, AllocError>
    ensures { IfOk result (λ o. o ≡ kept_with p.now ss) }
{
    match p {
        NowPart::Quantifier { constant, ty } => quantified(alloc, *constant, ty, &ss),
        NowPart::Antecedent(s) => implied(alloc, s, &ss),
        NowPart::Conjunct(s) => in_front(alloc, s, ss),
        NowPart::Defined { .. } => all_replaced(alloc, p, &ss),
        NowPart::Hidden { .. } => Ok(Some(ss)),
    }
}

#[tactic(auto, using(crate::proofs::StatedLemmas::whole_rules))]
fn whole(alloc: Global, ss: &Statements) -> Result<Option<Statement>, AllocError>
    ensures { IfOk result (λ o. o ≡ whole_kept ss.now) }
{
    let s = conjunction(alloc, ss)?;
    if statement_keeps(&s) {
        Ok(Some(s))
    } else {
        Ok(None)
    }
}

/// What the steps of a `now` state; truth where they state nothing, and none where it, or what a step makes on the way to
/// it, has more than 65,536 nodes or a depth above 512.
#[tactic(auto, using(crate::proofs::StatedLemmas::stated_rules))]
pub fn stated_by(alloc: Global, parts: &NowParts) -> Result<Option<Statement>, AllocError>
    ensures { IfOk result (λ o. IsStated parts.now o) }
{
    let ps = parts.items.as_slice();
    let mut ss = Statements::new(alloc);
    let mut i = ps.len();
    while i > 0 {
        i -= 1;
        match with_part(alloc, &ps[i], ss)? {
            Some(ts) => ss = ts,
            None => return Ok(None),
        }
    }
    whole(alloc, &ss)
}
