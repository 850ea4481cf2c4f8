//! How many branches a goal has, so that the one with fewest is taken.
use crate::goal::Goal;
use crate::hopeless::{is_quick, may_refute};
use mz_logic::formula::{Formula, FormulaNode};
use mz_logic::formulas::Formulas;
use mz_match::assignment::Assignment;
use mz_match::assignments::Assignments;
use mz_match::literals::match_literal;
use mz_match::table::Table;
use std::alloc::{AllocError, Global};

/// About how many branches the goal has; any answer is right. It is exact for literals that are quickly matched.
pub fn estimate(
    alloc: Global,
    table: &Table,
    values: &[usize],
    universals: &Formulas,
    g: &Goal,
    e: &Assignment,
) -> Result<usize, AllocError> {
    let f = g.formula;
    match (g.positive, &f.node) {
        (_, FormulaNode::Not(_)) => Ok(1),
        (false, FormulaNode::And(_, _)) => Ok(1),
        (true, FormulaNode::All(_)) => Ok(1),
        (true, FormulaNode::And(first, second)) => {
            let es = local(alloc, g, e)?;
            let left = may_refute(alloc, table, values, universals, true, first, &es)?;
            let right = may_refute(alloc, table, values, universals, true, second, &es)?;
            Ok(usize::from(left) + usize::from(right))
        }
        _ => matches(alloc, table, values, universals, g, e),
    }
}

fn local(alloc: Global, g: &Goal, e: &Assignment) -> Result<Assignments, AllocError> {
    let local = e.at_places(alloc, g.scope.as_slice())?;
    Assignments::single(alloc, local)
}

fn matches(
    alloc: Global,
    table: &Table,
    values: &[usize],
    universals: &Formulas,
    g: &Goal,
    e: &Assignment,
) -> Result<usize, AllocError> {
    let es = local(alloc, g, e)?;
    if !is_quick(g.positive, g.formula, &es) {
        return Ok(usize::MAX);
    }
    let found = match_literal(alloc, table, values, universals, g.positive, g.formula, &es)?;
    Ok(found.items.len())
}
