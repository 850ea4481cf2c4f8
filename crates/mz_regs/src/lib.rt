//! Blocks of registrations, taken.
#![tactic(auto)]

pub mod registering;
