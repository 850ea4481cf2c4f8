//! Blocks of definitions and of notations, taken.
use crate::blocks::take_block;
use mz_define::define_items::DefineItems;
use mz_notations::blocks::take_notations;
use mz_obligations::obligation::Obligations;
use mz_proof::proving::Proving;
use mz_standing::standing::Standing;
use mz_structure::struct_items::StructItems;
use mz_taken::item_fault::ItemFault;
use mz_tree_item::definition::DefinitionTree;
use mz_tree_part::notation::NotationTree;
use std::alloc::Global;

/// What takes blocks of definitions and of notations. Of definitions it takes all but redefinitions, which it refuses at their first token.
#[derive(Clone, Copy, Debug)]
pub struct Defining;

impl DefineItems for Defining {
    fn definition<S: StructItems>(
        alloc: Global,
        s: &mut Standing,
        os: &mut Obligations,
        tree: &DefinitionTree,
    ) -> Result<(), ItemFault> {
        take_block::<S, Proving>(alloc, s, os, tree)
    }

    fn notation(alloc: Global, s: &mut Standing, tree: &NotationTree) -> Result<(), ItemFault> {
        take_notations(alloc, s, tree)
    }
}
