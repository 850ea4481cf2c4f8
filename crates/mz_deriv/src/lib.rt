//! Derivations and their check.
#![tactic(auto)]

pub mod check;
pub mod derivation;
pub mod node;
