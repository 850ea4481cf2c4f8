//! Statements of compound forms. No double negation arises. A statement is boxed while others are made: a box is
//! let go in one way, a statement in as many as it has forms.
ghost use Rattle.std.specs.Prelude.{◌≡◌, IfOk};
ghost use Rattle.mz_core.specs.StatementForms.{opposite, disjunction, implication, equivalence, for_some};

use crate::soft_type::SoftType;
use crate::statement::{Statement, StatementNode};
use std::alloc::{AllocError, Global};

/// `not s`.
pub fn opposite(alloc: Global, s: Statement) -> Result<Statement, AllocError>
    ensures { IfOk result (λ t. t ≡ opposite s) }
{
    match s.into_node() {
        StatementNode::Not(t) => Ok(Box::into_inner(t)),
        node => Statement::not(alloc, Statement { node }),
    }
}

/// `s or t`.
pub fn disjunction(alloc: Global, s: Statement, t: Statement) -> Result<Statement, AllocError>
    ensures { IfOk result (λ u. u ≡ disjunction s t) }
{
    let t = Box::new(alloc, t)?;
    let s = Box::new(alloc, opposite(alloc, s)?)?;
    let t = Box::new(alloc, opposite(alloc, Box::into_inner(t))?)?;
    let u = Statement {
        node: StatementNode::And(s, t),
    };
    Statement::not(alloc, u)
}

/// `s implies t`.
pub fn implication(alloc: Global, s: Statement, t: Statement) -> Result<Statement, AllocError>
    ensures { IfOk result (λ u. u ≡ implication s t) }
{
    let t = opposite(alloc, t)?;
    let u = Statement::and(alloc, s, t)?;
    Statement::not(alloc, u)
}

fn implied(alloc: Global, s: &Statement, t: &Statement) -> Result<Statement, AllocError>
    ensures { IfOk result (λ u. u ≡ implication s.now t.now) }
{
    let s = Box::new(alloc, s.copy(alloc)?)?;
    let t = t.copy(alloc)?;
    implication(alloc, Box::into_inner(s), t)
}

/// `s iff t`.
pub fn equivalence(alloc: Global, s: Statement, t: Statement) -> Result<Statement, AllocError>
    ensures { IfOk result (λ u. u ≡ equivalence s t) }
{
    let t = Box::new(alloc, t)?;
    let s = Box::new(alloc, s)?;
    let left = Box::new(alloc, implied(alloc, &s, &t)?)?;
    let right = Box::new(
        alloc,
        implication(alloc, Box::into_inner(t), Box::into_inner(s))?,
    )?;
    Ok(Statement {
        node: StatementNode::And(left, right),
    })
}

/// `ex x being T st s`.
pub fn for_some(alloc: Global, ty: SoftType, s: Statement) -> Result<Statement, AllocError>
    ensures { IfOk result (λ t. t ≡ for_some ty s) }
{
    let s = opposite(alloc, s)?;
    let t = Statement::each(alloc, ty, s)?;
    Statement::not(alloc, t)
}
