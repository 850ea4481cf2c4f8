//! A step as it was read, and a step of the skeleton, lead to one state at most.
#![tactic(auto)]

pub mod laws;
