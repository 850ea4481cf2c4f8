//! Laws of chains: what a chain says of its term derives.
#![tactic(auto)]

pub mod laws;
