//! Problems, read from their texts, and what is told of them.
use mz_ground::fact_set::FactSet;
use mz_item_samples::types::ClauseRow;
use mz_samples::fault::SampleFault;
use mz_samples::parts::literals;
use std::alloc::Global;

/// A disjunct, clauses, facts, literals that are none, and whether the facts are contradictory. A further ground literal
/// stands in the disjunct behind `all`, as a universal without its variable.
pub type Problem = (
    &'static str,
    &'static [ClauseRow],
    &'static str,
    &'static str,
    bool,
);

/// Whether the literals of the text are all facts, or where `wanted` is false none of them is one.
fn are_facts<F: FactSet>(
    alloc: Global,
    f: &F,
    text: &str,
    wanted: bool,
) -> Result<bool, SampleFault> {
    let ls = literals(alloc, text)?;
    for l in &ls.items {
        if f.holds(l) != wanted {
            return Ok(false);
        }
    }
    Ok(true)
}

/// Whether the facts of the problem are facts, the last literals none, and contradictory facts told as such.
pub fn is_as_told<F: FactSet>(alloc: Global, f: &F, p: Problem) -> Result<bool, SampleFault> {
    let facts = are_facts(alloc, f, p.2, true)?;
    let none = are_facts(alloc, f, p.3, false)?;
    Ok(facts && none && f.contradictory() == p.4)
}
