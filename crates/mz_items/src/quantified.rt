//! Statements for each or some object of a type.
ghost use Rattle.std.specs.Prelude.{◌≡◌, IfOk};
ghost use Rattle.mz_core.specs.Statement.{For};
ghost use Rattle.mz_core.specs.StatementForms.{for_some};
ghost use Rattle.mz_items.specs.Loci.{over};

use mz_core::soft_type::SoftType;
use mz_core::soft_types::SoftTypes;
use mz_core::statement::{Statement, StatementNode};
use mz_core::statement_forms::opposite;
use std::alloc::{AllocError, Global};

/// `for x being T holds s`.
pub fn for_each(alloc: Global, ty: &SoftType, s: Statement) -> Result<Statement, AllocError>
    ensures { IfOk result (λ r. r ≡ For ty.now s) }
{
    let s = Box::new(alloc, s)?;
    let ty = ty.copy(alloc)?;
    Ok(Statement {
        node: StatementNode::For(ty, s),
    })
}

/// `ex x being T st s`.
pub fn exists(alloc: Global, ty: &SoftType, s: Statement) -> Result<Statement, AllocError>
    ensures { IfOk result (λ r. r ≡ for_some ty.now s) }
{
    let s = opposite(alloc, s)?;
    let s = for_each(alloc, ty, s)?;
    Statement::not(alloc, s)
}

/// `for L holds s`.
pub fn over(alloc: Global, loci: &SoftTypes, s: Statement) -> Result<Statement, AllocError>
    ensures { IfOk result (λ r. r ≡ over loci.now s) }
{
    over_all(alloc, loci.items.as_slice(), s)
}

fn over_all(alloc: Global, loci: &[SoftType], s: Statement) -> Result<Statement, AllocError>
    ensures { IfOk result (λ r. r ≡ over loci.now s) }
{
    match loci {
        [] => Ok(s),
        [ty, others @ ..] => {
            let s = over_all(alloc, others, s)?;
            for_each(alloc, ty, s)
        }
    }
}
