//! Which formulas needn't be followed further.
ghost use Rattle.std.specs.Prelude.{IfOk};
ghost use Rattle.mz_match.specs.Literals.{IsLiteral};
ghost use Rattle.mz_search.specs.Hopeless.{MayRefute};
ghost use Rattle.mz_match.specs.Table.{rows_of};

use crate::open_variables::is_quickly_matched;
use mz_logic::formula::{Formula, FormulaNode};
use mz_logic::formulas::Formulas;
use mz_match::assignments::Assignments;
use mz_match::literals::match_literal;
use mz_match::table::Table;
use std::alloc::{AllocError, Global};

/// Whether something that fits the assignments may refute the formula, or its negation where `positive` is false.
#[tactic(auto, using(crate::proofs::HopelessLemmas::may_rules))]
pub fn may_refute(
    alloc: Global,
    table: &Table,
    values: &[usize],
    universals: &Formulas,
    positive: bool,
    f: &Formula,
    es: &Assignments,
) -> Result<bool, AllocError>
    ensures { IfOk result (λ b. MayRefute (rows_of table.now) values.now universals.now positive f.now es.now b) }
{
    match &f.node {
        FormulaNode::Not(g) => may_refute(alloc, table, values, universals, !positive, g, es),
        FormulaNode::And(g, h) => {
            let first = may_refute(alloc, table, values, universals, positive, g, es)?;
            if positive == first {
                Ok(first)
            } else {
                may_refute(alloc, table, values, universals, positive, h, es)
            }
        }
        FormulaNode::All(_) => Ok(true),
        FormulaNode::Truth => may_match(alloc, table, values, universals, positive, f, es),
        FormulaNode::Eq(_, _) => may_match(alloc, table, values, universals, positive, f, es),
        FormulaNode::Atom(_, _) => may_match(alloc, table, values, universals, positive, f, es),
    }
}

/// The same of a literal, which is matched where that is quick.
fn may_match(
    alloc: Global,
    table: &Table,
    values: &[usize],
    universals: &Formulas,
    positive: bool,
    f: &Formula,
    es: &Assignments,
) -> Result<bool, AllocError>
    requires { IsLiteral positive f.now }
    ensures { IfOk result (λ b. MayRefute (rows_of table.now) values.now universals.now positive f.now es.now b) }
{
    if !is_quick(positive, f, es) {
        return Ok(true);
    }
    let found = match_literal(alloc, table, values, universals, positive, f, es)?;
    Ok(!found.is_empty())
}

/// Whether the literal is quickly matched under each of the assignments.
pub fn is_quick(positive: bool, f: &Formula, es: &Assignments) -> bool {
    for e in &es.items {
        if !is_quickly_matched(positive, f, e) {
            return false;
        }
    }
    true
}
