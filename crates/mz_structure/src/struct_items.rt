//! The call that takes structures.
ghost use Rattle.mz_structure.specs.Structures.{Structures};
ghost use Rattle.mz_taken.specs.Answers.{OnTaken, Brings};

use mz_obligations::obligation::Obligations;
use mz_standing::standing::Standing;
use mz_taken::item_fault::ItemFault;
use mz_tree_heading::structure::StructureTree;
use mz_tree_item::definition::ConditionOrPropertyTree;
use std::alloc::Global;

/// What takes structures.
pub trait StructItems {
    /// Takes a structure, a heading of a block whose loci are the constants with the numbers from `least` on, with the conditions and
    /// properties behind it. Its obligations are put behind the others.
    ///
    /// # Errors
    /// The first refusal in the order of the text, with its place; or there was no memory.
    fn structure(
        alloc: Global,
        least: u32,
        s: &mut Standing,
        os: &mut Obligations,
        tree: &StructureTree,
        conditions: &[ConditionOrPropertyTree],
    ) -> Result<(), ItemFault>
        ensures { OnTaken result (Brings (Structures least s.old tree.now conditions.now) s.new os.old os.new) };
}
