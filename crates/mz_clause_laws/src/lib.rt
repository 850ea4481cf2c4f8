//! The clauses of items derive from what these grant or owe: each law is the contract of a function that does
//! nothing.
#![tactic(auto)]

pub mod laws;
