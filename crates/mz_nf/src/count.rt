//! How many disjuncts a problem has.
ghost use Rattle.std.specs.Prelude.{◌≡◌, ◌↔◌, ◌*◌, true, IsTrue};
ghost use Rattle.mz_logic.specs.Capped.{capped};
ghost use Rattle.mz_nf.specs.Count.{count, count_all, count_of};

use crate::problem::Problem;
use mz_logic::capped::{capped_product, capped_sum};
use mz_logic::formula::{Formula, FormulaNode};
use mz_logic::formulas::Formulas;

/// How many disjuncts a problem has, equal ones included, or 1,000,000,000 where they are more.
#[tactic(auto, using(crate::proofs::CountLemmas::problem_rules))]
pub fn count_of(p: &Problem) -> u64
    ensures { result ≡ count_of p.now }
{
    capped_product(count_all(&p.premises), count(false, &p.conclusion))
}

/// How many disjuncts the formulas have as one conjunction, or 1,000,000,000 where they are more.
#[tactic(auto, using(crate::proofs::CountLemmas::list_rules))]
fn count_all(fs: &Formulas) -> u64
    ensures { result ≡ capped (count_all fs.now) }
{
    let mut total = 1;
    for f in &fs.items {
        total = capped_product(total, count(true, f));
    }
    total
}

/// How many disjuncts the formula has, or where `positive` is false its negation, or 1,000,000,000 where they are more.
#[tactic(auto, using(crate::proofs::CountLemmas::count_rules))]
pub fn count(positive: bool, f: &Formula) -> u64
    ensures { result ≡ capped (count positive f.now) }
{
    match &f.node {
        FormulaNode::Truth => { if positive { 1 } else { 0 } }
        FormulaNode::Eq(_, _) => 1,
        FormulaNode::Atom(_, _) => 1,
        FormulaNode::Not(g) => {
            if positive {
                count(false, g)
            } else {
                count(true, g)
            }
        }
        FormulaNode::And(g, h) => {
            if positive {
                capped_product(count(true, g), count(true, h))
            } else {
                capped_sum(count(false, g), count(false, h))
            }
        }
        FormulaNode::All(b) => { if positive { 1 } else { count(false, b) } }
    }
}

/// Whether the conjunction of the formulas has no disjuncts.
#[tactic(auto, using(crate::proofs::CountLemmas::pair_rules))]
pub fn has_no_pair(g: &Formula, h: &Formula) -> bool
    ensures { IsTrue result ↔ (count true g.now * count true h.now ≡ 0) }
{
    capped_product(count(true, g), count(true, h)) == 0
}
