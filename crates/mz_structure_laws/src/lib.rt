//! Laws of structures.
#![tactic(auto)]

pub mod laws;
