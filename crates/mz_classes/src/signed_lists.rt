//! The numbers of the atoms of each symbol that are facts with a sign.
ghost use Rattle.std.specs.Prelude.{◌≡◌, ◌<◌, ℕ, length, slice_index, IfOk, OnOk};
ghost use Rattle.mz_congruence.specs.FactTable.{table_view};
ghost use Rattle.mz_classes.specs.Indexed.{AreSignedLists, AreWithin, HasOneAtomMore};
ghost use Rattle.mz_classes.specs.SymLists.{HasPlaces};

use crate::labels::label_of;
use crate::sym_lists::SymLists;
use mz_congruence::fact_table::FactTable;
use mz_ground::fact_set::FactSet;
use std::alloc::{AllocError, Global};

// Puts the atom with the number `k` into the list of its symbol, if it is a fact with the sign.
#[tactic(auto, using(crate::proofs::IndexLemmas::atom_rules))]
fn add_atom(
    alloc: Global,
    f: &FactTable,
    places: &[usize],
    positive: bool,
    k: usize,
    lists: &mut SymLists,
) -> Result<(), AllocError>
    requires within { slice_index places.now k < length f.now.ground.atoms }
    requires places { HasPlaces lists.old }
    ensures { OnOk result (HasOneAtomMore (table_view f.now) places.now positive k lists.old lists.new) }
{
    let place = label_of(places, k);
    if f.is_signed(place, positive) {
        let number = u32::try_from(k).map_err(|_| AllocError)?;
        lists.push(alloc, f.ground.atoms.get(place).sym, number)
    } else {
        Ok(())
    }
}

/// For each symbol the numbers of its atoms that are facts with the sign, where these places are in the order of the
/// numbers.
pub fn signed_lists(
    alloc: Global,
    f: &FactTable,
    places: &[usize],
    positive: bool,
) -> Result<SymLists, AllocError>
    requires { AreWithin (length f.now.ground.atoms) places.now }
    ensures { IfOk result (λ x. AreSignedLists (table_view f.now) places.now positive x) }
{
    let mut lists = SymLists::new(alloc);
    for k in 0..f.ground.atoms.len() {
        add_atom(alloc, f, places, positive, k, &mut lists)?;
    }
    Ok(lists)
}
