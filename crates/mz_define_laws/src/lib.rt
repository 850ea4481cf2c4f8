//! Laws of blocks of definitions and of notations.
#![tactic(auto)]

pub mod laws;
