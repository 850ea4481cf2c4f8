//! The numbers of the terms of each class.
ghost use Rattle.std.specs.Prelude.{◌≡◌, ◌<◌, ◌≤◌, ◌++◌, ℕ, [], ◌∷◌, length, slice_index, IfOk, OnOk, if◌then◌else◌};
ghost use Rattle.mz_congruence.specs.FactTable.{table_view};
ghost use Rattle.mz_classes.specs.Numbers.{list_at};
ghost use Rattle.mz_classes.specs.Indexed.{AreMemberLists, AreWithin, has_label};

use crate::labels::label_of;
use crate::number_lists::NumberLists;
use mz_congruence::fact_table::FactTable;
use mz_ground::fact_set::FactSet;
use std::alloc::{AllocError, Global};

fn empty_lists(alloc: Global, count: usize) -> Result<NumberLists, AllocError>
    ensures { IfOk result (λ x. (length x ≡ count) × ((k : ℕ) → list_at x k ≡ [])) }
{
    let mut lists = NumberLists::new(alloc);
    'lists: for _ in 0..count {
        lists.add(alloc)?;
    }
    Ok(lists)
}

// Puts the term with the number `k` into the list of its class.
#[tactic(auto, using(crate::proofs::IndexLemmas::term_rules))]
fn add_term(
    f: &FactTable,
    places: &[usize],
    k: usize,
    lists: &mut NumberLists,
) -> Result<(), AllocError>
    requires within { slice_index places.now k < length f.now.ground.terms }
    requires bound { slice_index f.now.classes.items (slice_index places.now k) < length lists.old }
    ensures len { length lists.new ≡ length lists.old }
    ensures ok { OnOk result ((label : ℕ) → list_at lists.new label ≡ list_at lists.old label ++ (if has_label (table_view f.now) places.now label k then k ∷ [] else [])) }
{
    let number = u32::try_from(k).map_err(|_| AllocError)?;
    lists.push(f.class_at(label_of(places, k)), number)
}

/// For each class the numbers of its terms, where these places are in the order of the numbers.
pub fn member_lists(
    alloc: Global,
    f: &FactTable,
    places: &[usize],
) -> Result<NumberLists, AllocError>
    requires classes { (k : ℕ) → slice_index f.now.classes.items k ≤ k }
    requires within { AreWithin (length f.now.ground.terms) places.now }
    ensures { IfOk result (λ x. AreMemberLists (table_view f.now) places.now x) }
{
    let count = f.ground.terms.len();
    let mut lists = empty_lists(alloc, count)?;
    for k in 0..count {
        add_term(f, places, k, &mut lists)?;
    }
    Ok(lists)
}
