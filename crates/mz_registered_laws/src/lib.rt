//! Laws of blocks of registrations.
#![tactic(auto)]

pub mod laws;
