//! Clauses, rows and unfoldings of items have no constant and no loose index: each law is the contract of a function
//! that does nothing.
#![tactic(auto)]

pub mod laws;
