//! Laws of schemes.
#![tactic(auto)]

pub mod laws;
