//! The tokens that the nodes of expressions are spelled with.
#![tactic(auto)]

pub mod emit;
pub mod nodes;
