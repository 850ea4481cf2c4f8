//! Types and statements under more binders. An index above 4,294,967,295 is as no memory.
ghost use Rattle.std.specs.Prelude.{◌≡◌, IfOk, map};
ghost use Rattle.mz_core.specs.TypeShift.{shift_adjective, shift_radix, shift_type, shift_statement};

use crate::adjective::Adjective;
use crate::adjectives::Adjectives;
use crate::radix::Radix;
use crate::soft_type::SoftType;
use crate::statement::{Statement, StatementNode};
use mz_logic::shift::{shift, shift_terms};
use std::alloc::{AllocError, Global};

fn shift_adjective(
    alloc: Global,
    a: &Adjective,
    from: u32,
    by: u32,
) -> Result<Adjective, AllocError>
    ensures { IfOk result (λ b. b ≡ shift_adjective from by a.now) }
{
    let args = shift_terms(alloc, &a.args, from, by)?;
    Ok(Adjective {
        positive: a.positive,
        sym: a.sym,
        args,
    })
}

/// The same of each term of adjectives.
pub fn shift_adjectives(
    alloc: Global,
    xs: &Adjectives,
    from: u32,
    by: u32,
) -> Result<Adjectives, AllocError>
    ensures { IfOk result (λ ys. ys ≡ map (shift_adjective from by) xs.now) }
{
    let mut out = Vec::new(alloc);
    for a in &xs.items {
        out.push(shift_adjective(alloc, a, from, by)?)?;
    }
    Ok(Adjectives { items: out })
}

fn shift_radix(alloc: Global, r: &Radix, from: u32, by: u32) -> Result<Radix, AllocError>
    ensures { IfOk result (λ q. q ≡ shift_radix from by r.now) }
{
    let args = shift_terms(alloc, &r.args, from, by)?;
    Ok(Radix { sym: r.sym, args })
}

/// The same of each term of a type.
pub fn shift_type(alloc: Global, ty: &SoftType, from: u32, by: u32) -> Result<SoftType, AllocError>
    ensures { IfOk result (λ t. t ≡ shift_type from by ty.now) }
{
    let adjectives = shift_adjectives(alloc, &ty.adjectives, from, by)?;
    let radix = shift_radix(alloc, &ty.radix, from, by)?;
    Ok(SoftType { adjectives, radix })
}

/// The same of each term of a statement, past the binders of the statement itself.
pub fn shift_statement(
    alloc: Global,
    s: &Statement,
    from: u32,
    by: u32,
) -> Result<Statement, AllocError>
    ensures { IfOk result (λ r. r ≡ shift_statement from by s.now) }
{
    match &s.node {
        StatementNode::Truth => Ok(Statement::truth()),
        StatementNode::Eq(t, u) => {
            let t = shift(alloc, t, from, by)?;
            let u = shift(alloc, u, from, by)?;
            Ok(Statement::equation(t, u))
        }
        StatementNode::Atom(s, ts) => {
            let ts = shift_terms(alloc, ts, from, by)?;
            Ok(Statement::atom(*s, ts))
        }
        StatementNode::Not(s) => {
            let s = shift_statement(alloc, s, from, by)?;
            Statement::not(alloc, s)
        }
        StatementNode::And(s, t) => {
            let s = shift_statement(alloc, s, from, by)?;
            let t = shift_statement(alloc, t, from, by)?;
            Statement::and(alloc, s, t)
        }
        StatementNode::For(ty, s) => {
            let inner = from.checked_add(1).ok_or(AllocError)?;
            let ty = shift_type(alloc, ty, from, by)?;
            let s = shift_statement(alloc, s, inner, by)?;
            Statement::each(alloc, ty, s)
        }
    }
}
