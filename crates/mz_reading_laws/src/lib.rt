//! Laws of the reading: what is read has only constants in force and no loose index.
#![tactic(auto)]

pub mod laws;
