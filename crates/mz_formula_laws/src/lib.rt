//! What formulas and sentences are read to is determined.
#![tactic(auto)]

pub mod laws;
