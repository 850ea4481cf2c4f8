//! What rows say, the typing clauses say: each law is the contract of a function that does nothing.
#![tactic(auto)]

pub mod laws;
