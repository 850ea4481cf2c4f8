//! What justifications without proofs give is determined.
#![tactic(auto)]

pub mod laws;
