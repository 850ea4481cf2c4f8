//! A constant of a term, a type or a statement made an index. An index above 4,294,967,295 is as no memory.
ghost use Rattle.std.specs.Prelude.{◌≡◌, IfOk, map};
ghost use Rattle.mz_logic.specs.Abstraction.{term_over};
ghost use Rattle.mz_core.specs.Abstraction.{adjective_over, radix_over, type_over, statement_over};

use crate::adjective::Adjective;
use crate::adjectives::Adjectives;
use crate::radix::Radix;
use crate::soft_type::SoftType;
use crate::statement::{Statement, StatementNode};
use mz_logic::term::{Term, TermNode, Terms};
use std::alloc::{AllocError, Global};

/// The term below one more binder, outside the innermost `depth`, whose index stands for the constant c.
#[cycle(over)]
#[tactic(auto, using(mz_logic::proofs::AbstractionLaws::over_rules))]
pub fn term_over(alloc: Global, t: &Term, c: u32, depth: u32) -> Result<Term, AllocError>
    ensures { IfOk result (λ u. u ≡ term_over c depth t.now) }
{
    match &t.node {
        TermNode::Bound(index) => {
            if *index < depth {
                return Ok(Term::bound(*index));
            }
            let index = index.checked_add(1).ok_or(AllocError)?;
            Ok(Term::bound(index))
        }
        TermNode::Const(number) => {
            if *number == c {
                return Ok(Term::bound(depth));
            }
            Ok(Term::constant(*number))
        }
        TermNode::App(s, ts) => {
            let ts = terms_over(alloc, ts, c, depth)?;
            Ok(Term::apply(*s, ts))
        }
    }
}

/// The same of each term.
#[cycle(over)]
pub fn terms_over(alloc: Global, ts: &Terms, c: u32, depth: u32) -> Result<Terms, AllocError>
    ensures { IfOk result (λ us. us ≡ map (term_over c depth) ts.now) }
{
    let mut out = Vec::new(alloc);
    for t in &ts.items {
        out.push(term_over(alloc, t, c, depth)?)?;
    }
    Ok(Terms { items: out })
}

fn adjective_over(alloc: Global, a: &Adjective, c: u32, depth: u32) -> Result<Adjective, AllocError>
    ensures { IfOk result (λ b. b ≡ adjective_over c depth a.now) }
{
    let args = terms_over(alloc, &a.args, c, depth)?;
    Ok(Adjective {
        positive: a.positive,
        sym: a.sym,
        args,
    })
}

fn adjectives_over(
    alloc: Global,
    xs: &Adjectives,
    c: u32,
    depth: u32,
) -> Result<Adjectives, AllocError>
    ensures { IfOk result (λ ys. ys ≡ map (adjective_over c depth) xs.now) }
{
    let mut out = Vec::new(alloc);
    for a in &xs.items {
        out.push(adjective_over(alloc, a, c, depth)?)?;
    }
    Ok(Adjectives { items: out })
}

fn radix_over(alloc: Global, r: &Radix, c: u32, depth: u32) -> Result<Radix, AllocError>
    ensures { IfOk result (λ q. q ≡ radix_over c depth r.now) }
{
    let args = terms_over(alloc, &r.args, c, depth)?;
    Ok(Radix { sym: r.sym, args })
}

/// The same of each term of a type.
pub fn type_over(alloc: Global, ty: &SoftType, c: u32, depth: u32) -> Result<SoftType, AllocError>
    ensures { IfOk result (λ t. t ≡ type_over c depth ty.now) }
{
    let adjectives = adjectives_over(alloc, &ty.adjectives, c, depth)?;
    let radix = radix_over(alloc, &ty.radix, c, depth)?;
    Ok(SoftType { adjectives, radix })
}

/// The statement below one more binder, outside the innermost `depth`, whose index stands for the constant c:
/// with the depth 0 the body of a typed quantifier over an object that the constant was.
pub fn statement_over(
    alloc: Global,
    s: &Statement,
    c: u32,
    depth: u32,
) -> Result<Statement, AllocError>
    ensures { IfOk result (λ r. r ≡ statement_over c depth s.now) }
{
    match &s.node {
        StatementNode::Truth => Ok(Statement::truth()),
        StatementNode::Eq(t, u) => {
            let t = term_over(alloc, t, c, depth)?;
            let u = term_over(alloc, u, c, depth)?;
            Ok(Statement::equation(t, u))
        }
        StatementNode::Atom(s, ts) => {
            let ts = terms_over(alloc, ts, c, depth)?;
            Ok(Statement::atom(*s, ts))
        }
        StatementNode::Not(s) => {
            let s = statement_over(alloc, s, c, depth)?;
            Statement::not(alloc, s)
        }
        StatementNode::And(s, t) => {
            let s = statement_over(alloc, s, c, depth)?;
            let t = statement_over(alloc, t, c, depth)?;
            Statement::and(alloc, s, t)
        }
        StatementNode::For(ty, s) => {
            let inner = depth.checked_add(1).ok_or(AllocError)?;
            let ty = type_over(alloc, ty, c, depth)?;
            let s = statement_over(alloc, s, c, inner)?;
            Statement::each(alloc, ty, s)
        }
    }
}
