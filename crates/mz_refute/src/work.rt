//! The work of a refutation.
ghost use Rattle.std.specs.Prelude.{◌≡◌, true, IfOk, if◌then◌else◌};
ghost use Rattle.mz_match.specs.declared.row.Head.TheVariants.{Holds, Fails};
ghost use Rattle.mz_refute.specs.RowsWork.{counted_work, RowsAnswer};
ghost use Rattle.mz_match.specs.Table.{count_of};
ghost use Rattle.mz_logic.specs.Capped.{capped};

use crate::answer::Answer;
use mz_logic::capped::{capped_product, capped_sum};
use mz_logic::formula::{Formula, FormulaNode};
use mz_logic::formulas::Formulas;
use mz_logic::sym::Sym;
use mz_match::row::Head;
use mz_match::table::Table;
use mz_search::search::is_refuted;
use std::alloc::{AllocError, Global};

/// The greatest work with which a refutation is looked for.
const LIMIT: u64 = 10_000_000;

/// A count, or 1,000,000,000 where it is greater.
pub fn capped(n: usize) -> u64
    ensures { result ≡ capped n }
{
    capped_sum(n as u64, 0)
}

/// The work of an atom of the symbol, or of its negation where `positive` is false.
fn atom_work(table: &Table, positive: bool, s: Sym) -> u64
    ensures { result ≡ (if positive then capped (count_of table.now (Fails s)) else capped (count_of table.now (Holds s))) }
{
    if positive {
        capped(table.count(Head::Fails(s)))
    } else {
        capped(table.count(Head::Holds(s)))
    }
}

/// The work of a formula, or of its negation where `positive` is false.
pub fn work(table: &Table, terms: usize, universals: &Formulas, positive: bool, f: &Formula) -> u64
    ensures { result ≡ counted_work (count_of table.now) terms universals.now positive f.now }
{
    match &f.node {
        FormulaNode::Truth => 1,
        FormulaNode::Eq(_, _) => {
            if positive {
                capped(table.count(Head::Disequal))
            } else {
                capped(terms)
            }
        }
        FormulaNode::Atom(s, _) => atom_work(table, positive, *s),
        FormulaNode::Not(g) => work(table, terms, universals, !positive, g),
        FormulaNode::And(g, h) => {
            let left = work(table, terms, universals, positive, g);
            let right = work(table, terms, universals, positive, h);
            if positive {
                capped_sum(left, right)
            } else {
                capped_product(left, right)
            }
        }
        FormulaNode::All(b) => {
            if positive {
                work(table, terms, universals, true, b)
            } else {
                capped(universals.len())
            }
        }
    }
}

/// Whether the rows refute a universal without free indices, within the limit of its work.
#[tactic(auto, unfolding(crate::specs::RowsWork::RowsAnswer))]
pub fn answer(
    alloc: Global,
    table: &Table,
    terms: usize,
    values: &[usize],
    universals: &Formulas,
    f: &Formula,
) -> Result<Answer, AllocError>
    ensures { IfOk result (λ r. RowsAnswer table.now terms values.now universals.now f.now r) }
{
    let work = work(table, terms, universals, true, f);
    if work > LIMIT {
        return Ok(Answer::Over { work });
    }
    if is_refuted(alloc, table, values, universals, f)? {
        Ok(Answer::Yes)
    } else {
        Ok(Answer::No)
    }
}
