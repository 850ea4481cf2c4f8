//! Statements, read from the texts of formulas, with the types of their quantifiers.
use crate::types::{TypeRow, ty};
use mz_core::statement::Statement;
use mz_logic::formula::{Formula, FormulaNode};
use mz_samples::fault::SampleFault;
use mz_samples::forms::formula;
use std::alloc::Global;

/// The type at the place, and behind the types the last one.
fn type_at(types: &[TypeRow], last: TypeRow, at: usize) -> TypeRow {
    match types.get(at) {
        Some(t) => *t,
        None => last,
    }
}

/// The formula as a statement, whose quantifiers have the types from `at` on, and the last one behind these.
fn typed(
    alloc: Global,
    f: &Formula,
    types: &[TypeRow],
    last: TypeRow,
    at: &mut usize,
) -> Result<Statement, SampleFault> {
    match &f.node {
        FormulaNode::Truth => Ok(Statement::truth()),
        FormulaNode::Eq(left, right) => {
            let left = left.copy(alloc)?;
            let right = right.copy(alloc)?;
            Ok(Statement::equation(left, right))
        }
        FormulaNode::Atom(sym, args) => {
            let args = args.copy(alloc)?;
            Ok(Statement::atom(*sym, args))
        }
        FormulaNode::Not(g) => {
            let s = typed(alloc, g, types, last, at)?;
            let s = Statement::not(alloc, s)?;
            Ok(s)
        }
        FormulaNode::And(g, h) => {
            let s = Box::new(alloc, typed(alloc, g, types, last, at)?)?;
            let u = typed(alloc, h, types, last, at)?;
            let s = Statement::and(alloc, Box::into_inner(s), u)?;
            Ok(s)
        }
        FormulaNode::All(g) => {
            let t = type_at(types, last, *at);
            *at = at.saturating_add(1);
            let s = Box::new(alloc, typed(alloc, g, types, last, at)?)?;
            let ty = ty(alloc, t)?;
            let s = Statement::each(alloc, ty, Box::into_inner(s))?;
            Ok(s)
        }
    }
}

/// The statement of a formula's text. Its quantifiers, from the left, have the types in turn, and the last one behind these.
pub fn statement(
    alloc: Global,
    text: &str,
    types: &[TypeRow],
    last: TypeRow,
) -> Result<Statement, SampleFault> {
    let f = formula(alloc, text)?;
    let mut at = 0;
    typed(alloc, &f, types, last, &mut at)
}
