//! Statements that introduce names lead to one outcome at most, and compact statements are read to one.
#![tactic(auto)]

pub mod laws;
