//! Copies of the nodes of expressions.
#![tactic(auto)]

pub mod nodes;
