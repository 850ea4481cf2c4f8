//! The unfoldings of items derive from what these grant or owe.
#![tactic(auto)]

pub mod laws;
