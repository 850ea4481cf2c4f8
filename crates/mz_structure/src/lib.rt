//! What comes of a structure, and the call that takes it.
#![tactic(auto)]

pub mod ancestry;
pub mod struct_items;
