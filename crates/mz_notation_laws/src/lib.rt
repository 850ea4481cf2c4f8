//! Laws of blocks of notations.
#![tactic(auto)]

pub mod laws;
