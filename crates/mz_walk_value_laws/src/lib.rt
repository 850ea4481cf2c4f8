//! The walk over a reasoning leads to one outcome at most.
#![tactic(auto)]

pub mod laws;
