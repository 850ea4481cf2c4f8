//! Iterative equalities: t0 = t1 .= t2 .= .. .= tn.
ghost use Rattle.std.specs.Prelude.{◌≡◌, IfOk};
ghost use Rattle.mz_core.specs.Statement.{Eq};
ghost use Rattle.mz_steps.specs.Equalities.{neighbours, last_of, ends_equal};

use mz_core::statement::Statement;
use mz_core::statements::Statements;
use mz_logic::term::Term;
use std::alloc::{AllocError, Global};

fn equation(alloc: Global, t: &Term, u: &Term) -> Result<Statement, AllocError>
    ensures { IfOk result (λ s. s ≡ Eq t.now u.now) }
{
    let t = t.copy(alloc)?;
    let u = u.copy(alloc)?;
    Ok(Statement::equation(t, u))
}

/// The equations of neighbours, each of which has to be justified.
pub fn neighbours(alloc: Global, first: &Term, others: &[Term]) -> Result<Statements, AllocError>
    ensures { IfOk result (λ ss. ss ≡ neighbours first.now others.now) }
{
    let mut out = Statements::new(alloc);
    let mut t = first;
    for u in others {
        out.push(equation(alloc, t, u)?)?;
        t = u;
    }
    Ok(out)
}

/// What is stated: the first side is equal to the last.
pub fn ends_equal(alloc: Global, first: &Term, others: &[Term]) -> Result<Statement, AllocError>
    ensures { IfOk result (λ s. s ≡ ends_equal first.now others.now) }
{
    let mut t = first;
    for u in others {
        t = u;
    }
    equation(alloc, first, t)
}
