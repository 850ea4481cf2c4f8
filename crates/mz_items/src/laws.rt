//! Laws of items, each the contract of a function that does nothing.
ghost use Rattle.mz_items.specs.Laws.{ClosedOwed, ClosedGranted};

/// An item without constants and loose indices owes and grants formulas without constants and free indices.
#[tactic(auto, using(crate::proofs::ClosedLaws::closed_owed, crate::proofs::ClosedLaws::closed_granted))]
pub fn closed_item_law()
    ensures owed { ClosedOwed }
    ensures granted { ClosedGranted }
{}
