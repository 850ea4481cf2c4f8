//! Blocks of registrations, taken.
use mz_obligations::obligation::Obligations;
use mz_proof::proving::Proving;
use mz_register::register_items::RegisterItems;
use mz_registering::block::take_block;
use mz_standing::standing::Standing;
use mz_taken::item_fault::ItemFault;
use mz_tree_item::registration::RegistrationTree;
use std::alloc::Global;

/// What takes blocks of registrations.
#[derive(Clone, Copy, Debug)]
pub struct Registering;

impl RegisterItems for Registering {
    fn registration(
        alloc: Global,
        s: &mut Standing,
        os: &mut Obligations,
        tree: &RegistrationTree,
    ) -> Result<(), ItemFault> {
        take_block::<Proving>(alloc, s, os, tree)
    }
}
