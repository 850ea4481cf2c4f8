//! The calls that take blocks of definitions and of notations.
ghost use Rattle.mz_define.specs.Defines.{Defines, Notes};
ghost use Rattle.mz_taken.specs.Answers.{OnTaken, Brings, Leads};

use mz_obligations::obligation::Obligations;
use mz_standing::standing::Standing;
use mz_structure::struct_items::StructItems;
use mz_taken::item_fault::ItemFault;
use mz_tree_item::definition::DefinitionTree;
use mz_tree_part::notation::NotationTree;
use std::alloc::Global;

/// What takes blocks of definitions, with their structures by `S`, and blocks of notations.
pub trait DefineItems {
    /// Takes a block of definitions. Its obligations are put behind the others.
    ///
    /// # Errors
    /// The first refusal in the order of the text, with its place; or there was no memory.
    fn definition<S: StructItems>(
        alloc: Global,
        s: &mut Standing,
        os: &mut Obligations,
        tree: &DefinitionTree,
    ) -> Result<(), ItemFault>
        ensures { OnTaken result (Brings (Defines s.old tree.now) s.new os.old os.new) };

    /// Takes a block of notations, which makes no obligation.
    ///
    /// # Errors
    /// The first refusal in the order of the text, with its place; or there was no memory.
    fn notation(alloc: Global, s: &mut Standing, tree: &NotationTree) -> Result<(), ItemFault>
        ensures { OnTaken result (Leads (Notes s.old tree.now) s.new) };
}
