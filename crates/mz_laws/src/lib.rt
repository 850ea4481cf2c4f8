//! Further laws of what derives and of statements, each the contract of a function that does nothing.
#![tactic(auto)]

pub mod derivation_laws;
pub mod statement_laws;
