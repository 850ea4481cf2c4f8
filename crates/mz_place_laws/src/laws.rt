//! Where faults and tokens stand, as the contract of a function that does nothing.
ghost use Rattle.mz_place_laws.specs.Laws.{PlaceLaw, TreePlaceLaw};

/// A fault in front of the items stands in the text or just after its last byte, and so does each token of the tree that
/// is found.
pub fn place_law()
    ensures faults { PlaceLaw }
    ensures tree { TreePlaceLaw }
{}
