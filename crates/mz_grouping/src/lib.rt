//! Runs of operands and functor symbols, grouped by rank without recursion in their length.
#![tactic(auto)]

pub mod grouping;
pub mod opened;
