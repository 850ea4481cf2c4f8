//! Structures, taken.
use crate::heading::take_structure;
use mz_obligations::obligation::Obligations;
use mz_standing::standing::Standing;
use mz_structure::struct_items::StructItems;
use mz_taken::item_fault::ItemFault;
use mz_tree_heading::structure::StructureTree;
use mz_tree_item::definition::ConditionOrPropertyTree;
use std::alloc::Global;

/// What takes structures.
#[derive(Clone, Copy, Debug)]
pub struct Structuring;

impl StructItems for Structuring {
    #[tactic(auto, using(crate::proofs::LedLemmas::told_brought))]
    fn structure(
        alloc: Global,
        least: u32,
        s: &mut Standing,
        _os: &mut Obligations,
        tree: &StructureTree,
        conditions: &[ConditionOrPropertyTree],
    ) -> Result<(), ItemFault> {
        take_structure(alloc, least, s, tree, conditions)
    }
}
