//! Conjuncts of statements, and what is said under antecedents.
ghost use Rattle.std.specs.Prelude.{◌≡◌, ◌++◌, IfOk, OnOk};
ghost use Rattle.mz_core.specs.Parts.{parts, conjunction_to, conjunction, where_all};

use crate::statement::{Statement, StatementNode};
use crate::statement_forms::implication;
use crate::statements::Statements;
use std::alloc::{AllocError, Global};

fn push_parts(alloc: Global, s: &Statement, out: &mut Statements) -> Result<(), AllocError>
    ensures { OnOk result (out.new ≡ out.old ++ parts s.now) }
{
    match &s.node {
        StatementNode::And(t, u) => {
            push_parts(alloc, t, out)?;
            push_parts(alloc, u, out)
        }
        _ => {
            out.push(s.copy(alloc)?)?;
            Ok(())
        }
    }
}

/// The conjuncts of a statement, from left to right; the statement itself where it is no conjunction.
pub fn parts(alloc: Global, s: &Statement) -> Result<Statements, AllocError>
    ensures { IfOk result (λ ss. ss ≡ parts s.now) }
{
    let mut out = Statements::new(alloc);
    push_parts(alloc, s, &mut out)?;
    Ok(out)
}

fn conjunction_to(alloc: Global, s: &Statement, ts: &[Statement]) -> Result<Statement, AllocError>
    ensures { IfOk result (λ r. r ≡ conjunction_to s.now ts.now) }
{
    let mut all = s.copy(alloc)?;
    for t in ts {
        let t = t.copy(alloc)?;
        all = Statement::and(alloc, all, t)?;
    }
    Ok(all)
}

/// The conjunction, grouped to the left; truth of no statements.
pub fn conjunction(alloc: Global, ss: &Statements) -> Result<Statement, AllocError>
    ensures { IfOk result (λ s. s ≡ conjunction ss.now) }
{
    match ss.items.as_slice() {
        [] => Ok(Statement::truth()),
        [s, others @ ..] => conjunction_to(alloc, s, others),
    }
}

/// The statement under the antecedent that joins the others, where there are any.
pub fn where_all(alloc: Global, ss: &Statements, s: Statement) -> Result<Statement, AllocError>
    ensures { IfOk result (λ r. r ≡ where_all ss.now s) }
{
    match ss.items.as_slice() {
        [] => Ok(s),
        [t, others @ ..] => {
            let s = Box::new(alloc, s)?;
            let t = conjunction_to(alloc, t, others)?;
            implication(alloc, t, Box::into_inner(s))
        }
    }
}
