//! Statements made of parts that stay. A statement is boxed while others are made: a box is let go in one way,
//! a statement in as many as it has forms.
ghost use Rattle.std.specs.Prelude.{◌≡◌, ◌∷◌, [], IfOk};
ghost use Rattle.mz_core.specs.Statement.{Eq};
ghost use Rattle.mz_core.specs.StatementForms.{equivalence};

use mz_core::statement::Statement;
use mz_core::statement_forms::equivalence;
use mz_core::statements::Statements;
use mz_logic::term::Term;
use std::alloc::{AllocError, Global};

/// `t = u`.
pub fn equation(alloc: Global, t: &Term, u: &Term) -> Result<Statement, AllocError>
    ensures { IfOk result (λ s. s ≡ Eq t.now u.now) }
{
    let t = t.copy(alloc)?;
    let u = u.copy(alloc)?;
    Ok(Statement::equation(t, u))
}

/// `s iff t`.
pub fn equivalent(alloc: Global, s: &Statement, t: &Statement) -> Result<Statement, AllocError>
    ensures { IfOk result (λ r. r ≡ equivalence s.now t.now) }
{
    let s = Box::new(alloc, s.copy(alloc)?)?;
    let t = t.copy(alloc)?;
    equivalence(alloc, Box::into_inner(s), t)
}

/// One statement.
pub fn one(alloc: Global, s: Statement) -> Result<Statements, AllocError>
    ensures { IfOk result (λ ss. ss ≡ s ∷ []) }
{
    let mut out = Statements::new(alloc);
    out.push(s)?;
    Ok(out)
}
