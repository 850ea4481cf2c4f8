//! Types, literals and statements with terms for their indices.
ghost use Rattle.std.specs.Prelude.{◌≡◌, [], ◌∷◌, IfOk, map};
ghost use Rattle.mz_logic.specs.Substitution.{values_of};
ghost use Rattle.mz_core.specs.TypeSubstitution.{substitute_adjective, substitute_radix, substitute_type, substitute_literal, substitute_statement, statement_at};

use crate::adjective::Adjective;
use crate::adjectives::Adjectives;
use crate::radix::Radix;
use crate::soft_type::SoftType;
use crate::statement::{Statement, StatementNode};
use mz_logic::beyond::Beyond;
use mz_logic::literal::Literal;
use mz_logic::substitution::{substitute, substitute_terms};
use mz_logic::term::{Term, Terms};
use std::alloc::{AllocError, Global};

fn substitute_adjective(
    alloc: Global,
    a: &Adjective,
    depth: u32,
    values: &Terms,
    beyond: Beyond,
) -> Result<Adjective, AllocError>
    ensures { IfOk result (λ b. b ≡ substitute_adjective depth (values_of beyond values.now) a.now) }
{
    let args = substitute_terms(alloc, &a.args, depth, values, beyond)?;
    Ok(Adjective {
        positive: a.positive,
        sym: a.sym,
        args,
    })
}

fn substitute_adjectives(
    alloc: Global,
    xs: &Adjectives,
    depth: u32,
    values: &Terms,
    beyond: Beyond,
) -> Result<Adjectives, AllocError>
    ensures { IfOk result (λ ys. ys ≡ map (substitute_adjective depth (values_of beyond values.now)) xs.now) }
{
    let mut out = Vec::new(alloc);
    for a in &xs.items {
        out.push(substitute_adjective(alloc, a, depth, values, beyond)?)?;
    }
    Ok(Adjectives { items: out })
}

fn substitute_radix(
    alloc: Global,
    r: &Radix,
    depth: u32,
    values: &Terms,
    beyond: Beyond,
) -> Result<Radix, AllocError>
    ensures { IfOk result (λ q. q ≡ substitute_radix depth (values_of beyond values.now) r.now) }
{
    let args = substitute_terms(alloc, &r.args, depth, values, beyond)?;
    Ok(Radix { sym: r.sym, args })
}

/// The same of each term of a type.
pub fn substitute_type(
    alloc: Global,
    ty: &SoftType,
    depth: u32,
    values: &Terms,
    beyond: Beyond,
) -> Result<SoftType, AllocError>
    ensures { IfOk result (λ t. t ≡ substitute_type depth (values_of beyond values.now) ty.now) }
{
    let adjectives = substitute_adjectives(alloc, &ty.adjectives, depth, values, beyond)?;
    let radix = substitute_radix(alloc, &ty.radix, depth, values, beyond)?;
    Ok(SoftType { adjectives, radix })
}

/// The same of each term of a literal.
pub fn substitute_literal(
    alloc: Global,
    l: &Literal,
    depth: u32,
    values: &Terms,
    beyond: Beyond,
) -> Result<Literal, AllocError>
    ensures { IfOk result (λ k. k ≡ substitute_literal depth (values_of beyond values.now) l.now) }
{
    match l {
        Literal::Atom {
            positive,
            sym,
            args,
        } => {
            let args = substitute_terms(alloc, args, depth, values, beyond)?;
            Ok(Literal::Atom {
                positive: *positive,
                sym: *sym,
                args,
            })
        }
        Literal::Eq {
            positive,
            left,
            right,
        } => {
            let left = substitute(alloc, left, depth, values, beyond)?;
            let right = substitute(alloc, right, depth, values, beyond)?;
            Ok(Literal::Eq {
                positive: *positive,
                left,
                right,
            })
        }
    }
}

/// The same of each term of a statement, past the binders of the statement itself.
pub fn substitute_statement(
    alloc: Global,
    s: &Statement,
    depth: u32,
    values: &Terms,
    beyond: Beyond,
) -> Result<Statement, AllocError>
    ensures { IfOk result (λ r. r ≡ substitute_statement depth (values_of beyond values.now) s.now) }
{
    match &s.node {
        StatementNode::Truth => Ok(Statement::truth()),
        StatementNode::Eq(t, u) => {
            let t = substitute(alloc, t, depth, values, beyond)?;
            let u = substitute(alloc, u, depth, values, beyond)?;
            Ok(Statement::equation(t, u))
        }
        StatementNode::Atom(s, ts) => {
            let ts = substitute_terms(alloc, ts, depth, values, beyond)?;
            Ok(Statement::atom(*s, ts))
        }
        StatementNode::Not(s) => {
            let s = substitute_statement(alloc, s, depth, values, beyond)?;
            Statement::not(alloc, s)
        }
        StatementNode::And(s, t) => {
            let s = substitute_statement(alloc, s, depth, values, beyond)?;
            let t = substitute_statement(alloc, t, depth, values, beyond)?;
            Statement::and(alloc, s, t)
        }
        StatementNode::For(ty, s) => {
            let inner = depth.checked_add(1).ok_or(AllocError)?;
            let ty = substitute_type(alloc, ty, depth, values, beyond)?;
            let s = substitute_statement(alloc, s, inner, values, beyond)?;
            Statement::each(alloc, ty, s)
        }
    }
}

/// The body of a typed quantifier at a term.
pub fn statement_at(alloc: Global, s: &Statement, t: &Term) -> Result<Statement, AllocError>
    ensures { IfOk result (λ r. r ≡ statement_at s.now t.now) }
{
    let mut values = Terms::new(alloc);
    values.push(t.copy(alloc)?)?;
    substitute_statement(alloc, s, 0, &values, Beyond::Lowered)
}
