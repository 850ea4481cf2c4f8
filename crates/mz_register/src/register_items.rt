//! The call that takes blocks of registrations.
ghost use Rattle.mz_register.specs.Registers.{Registers};
ghost use Rattle.mz_taken.specs.Answers.{OnTaken, Brings};

use mz_obligations::obligation::Obligations;
use mz_standing::standing::Standing;
use mz_taken::item_fault::ItemFault;
use mz_tree_item::registration::RegistrationTree;
use std::alloc::Global;

/// What takes blocks of registrations.
pub trait RegisterItems {
    /// Takes a block of registrations. Its obligations are put behind the others.
    ///
    /// # Errors
    /// The first refusal in the order of the text, with its place; or there was no memory.
    fn registration(
        alloc: Global,
        s: &mut Standing,
        os: &mut Obligations,
        tree: &RegistrationTree,
    ) -> Result<(), ItemFault>
        ensures { OnTaken result (Brings (Registers s.old tree.now) s.new os.old os.new) };
}
