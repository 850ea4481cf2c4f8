//! What parts of steps are read to is determined.
#![tactic(auto)]

pub mod laws;
