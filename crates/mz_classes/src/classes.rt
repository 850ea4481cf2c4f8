//! Facts of a disjunct by numbered classes.
ghost use Rattle.std.specs.Prelude.{◌≡◌, true, false, [], length};
ghost use Rattle.mz_congruence.specs.FactTable.{table_view};
ghost use Rattle.mz_classes.specs.Indexed.{AreMemberLists, AreSignedLists, AreWithin};

use crate::number_lists::NumberLists;
use crate::numbers::Numbers;
use crate::sym_lists::SymLists;
use mz_congruence::fact_table::FactTable;
use mz_numbering::numbering::Numbering;

/// The facts of a disjunct under clauses, with the numbers of the terms of each class and of the atoms of each symbol
/// and sign.
#[derive(Drop)]
pub struct Classes {
    pub(crate) table: FactTable,
    pub(crate) numbering: Numbering,
    pub(crate) members: NumberLists,
    pub(crate) positive: SymLists,
    pub(crate) negative: SymLists,
    pub(crate) none: Numbers,
    ghost member_lists: { AreMemberLists (table_view table) numbering.terms.items members },
    ghost positive_lists: { AreSignedLists (table_view table) numbering.atoms.items true positive },
    ghost negative_lists: { AreSignedLists (table_view table) numbering.atoms.items false negative },
    ghost within: { AreWithin (length table.ground.terms) numbering.terms.items },
    ghost empty: { none ≡ [] },
}
