//! Statements: formulas whose quantifiers keep their types.
ghost use Rattle.std.specs.Prelude.{◌≡◌, ◌↔◌, IsTrue, IfOk};
ghost use Rattle.mz_core.specs.Statement.{Statement, Truth, Eq, Atom, Not, And, For};
ghost use Rattle.mz_core.specs.StatementView.{statement_of};

use crate::soft_type::SoftType;
use mz_logic::sym::Sym;
use mz_logic::term::{Term, Terms};
use std::alloc::{AllocError, Global};
use std::marker::Model;

/// A statement.
#[cycle(statement)]
pub struct Statement {
    pub node: StatementNode,
}

impl Drop for Statement {
    fn drop(self) {
        let Statement { node: _node } = self;
    }
}

/// The forms of a statement. The type of a `For` stands outside the quantifier, the rest under it.
#[cycle(statement)]
#[derive(Drop)]
pub enum StatementNode {
    Truth,
    Eq(Term, Term),
    Atom(Sym, Terms),
    Not(Box<Statement>),
    And(Box<Statement>, Box<Statement>),
    For(SoftType, Box<Statement>),
}

impl Model for Statement {
    ghost use Rattle.mz_core.specs.Statement.{Statement};
    ghost use Rattle.mz_core.specs.StatementStorage.{statement_code, statement_size};

    ghost Value = { Statement };

    ghost coded = { statement_code };

    ghost use Rattle.mz_core.specs.StatementView.{statement_of};

    ghost view = { λ a. statement_of a.node };

    ghost size = { statement_size };

    ghost use Rattle.mz_core.specs.StatementDecreases.{statement_decreases};

    ghost size_decreases = { λ a h. statement_decreases a.node };
}

impl Statement {
    /// Truth.
    pub fn truth() -> Statement
        ensures { result ≡ Truth }
    {
        Statement {
            node: StatementNode::Truth,
        }
    }

    /// An equation.
    pub fn equation(left: Term, right: Term) -> Statement
        ensures { result ≡ Eq left right }
    {
        Statement {
            node: StatementNode::Eq(left, right),
        }
    }

    /// An atom.
    pub fn atom(sym: Sym, args: Terms) -> Statement
        ensures { result ≡ Atom sym args }
    {
        Statement {
            node: StatementNode::Atom(sym, args),
        }
    }

    /// The negation of a statement.
    pub fn not(alloc: Global, s: Statement) -> Result<Statement, AllocError>
        ensures { IfOk result (λ r. r ≡ Not s) }
    {
        let s = Box::new(alloc, s)?;
        Ok(Statement {
            node: StatementNode::Not(s),
        })
    }

    /// The conjunction of two statements.
    pub fn and(alloc: Global, s: Statement, t: Statement) -> Result<Statement, AllocError>
        ensures { IfOk result (λ r. r ≡ And s t) }
    {
        let s = Box::new(alloc, s)?;
        let t = Box::new(alloc, t)?;
        Ok(Statement {
            node: StatementNode::And(s, t),
        })
    }

    /// The statement for each object of the type, which is its index 0.
    pub fn each(alloc: Global, ty: SoftType, s: Statement) -> Result<Statement, AllocError>
        ensures { IfOk result (λ r. r ≡ For ty s) }
    {
        let s = Box::new(alloc, s)?;
        Ok(Statement {
            node: StatementNode::For(ty, s),
        })
    }

    /// The form of a statement that is given up.
    pub fn into_node(self) -> StatementNode
        ensures { statement_of result ≡ self }
    {
        let Statement { node } = self;
        node
    }

    /// An equal statement.
    pub fn copy(&self, alloc: Global) -> Result<Statement, AllocError>
        ensures { IfOk result (λ s. s ≡ self.now) }
    {
        match &self.node {
            StatementNode::Truth => Ok(Statement::truth()),
            StatementNode::Eq(t, u) => {
                let t = t.copy(alloc)?;
                let u = u.copy(alloc)?;
                Ok(Statement::equation(t, u))
            }
            StatementNode::Atom(s, ts) => {
                let ts = ts.copy(alloc)?;
                Ok(Statement::atom(*s, ts))
            }
            StatementNode::Not(s) => {
                let s = s.copy(alloc)?;
                Statement::not(alloc, s)
            }
            StatementNode::And(s, t) => {
                let s = s.copy(alloc)?;
                let t = t.copy(alloc)?;
                Statement::and(alloc, s, t)
            }
            StatementNode::For(ty, s) => {
                let ty = ty.copy(alloc)?;
                let s = s.copy(alloc)?;
                Statement::each(alloc, ty, s)
            }
        }
    }

    /// Whether the statements are equal.
    pub fn equals(&self, other: &Statement) -> bool
        ensures { IsTrue result ↔ (self.now ≡ other.now) }
    {
        match (&self.node, &other.node) {
            (StatementNode::Truth, StatementNode::Truth) => true,
            (StatementNode::Eq(t, u), StatementNode::Eq(v, w)) => t.equals(v) && u.equals(w),
            (StatementNode::Atom(r, ts), StatementNode::Atom(s, us)) => r.is(*s) && ts.equals(us),
            (StatementNode::Not(s), StatementNode::Not(t)) => s.equals(t),
            (StatementNode::And(s, t), StatementNode::And(u, v)) => s.equals(u) && t.equals(v),
            (StatementNode::For(ty, s), StatementNode::For(other, t)) => {
                ty.equals(other) && s.equals(t)
            }
            _ => false,
        }
    }
}
