//! The call that takes schemes.
ghost use Rattle.mz_scheme_items.specs.StatesScheme.{StatesScheme};
ghost use Rattle.mz_taken.specs.Answers.{OnTaken, Brings};

use mz_obligations::obligation::Obligations;
use mz_standing::standing::Standing;
use mz_taken::item_fault::ItemFault;
use mz_tree_item::schemes::SchemeTree;
use mz_walk::prove_steps::ProveSteps;
use std::alloc::Global;

/// What takes schemes.
pub trait StateSchemes {
    /// Takes a scheme, whose justification is taken by `P`. Its obligations are put behind the others.
    ///
    /// # Errors
    /// The first refusal in the order of the text, with its place; or there was no memory.
    fn scheme<P: ProveSteps>(
        alloc: Global,
        s: &mut Standing,
        os: &mut Obligations,
        tree: &SchemeTree,
    ) -> Result<(), ItemFault>
        ensures { OnTaken result (Brings (StatesScheme s.old tree.now) s.new os.old os.new) };
}
