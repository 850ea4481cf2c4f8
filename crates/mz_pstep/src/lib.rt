//! The parser of the parts of reasonings that hold no proof, exact as that of propositions is.
#![tactic(auto)]

pub mod equalities;
pub mod introductions;
pub mod lists;
pub mod skeletons;
