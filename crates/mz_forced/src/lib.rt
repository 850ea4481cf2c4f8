//! The literals that universals force in a disjunct: definitions and laws.
#![tactic(auto)]

pub mod laws;
