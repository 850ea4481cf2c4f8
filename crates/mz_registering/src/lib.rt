//! Blocks of registrations, taken by any calls that take reasonings.
#![tactic(auto)]

pub mod block;
pub mod heading;
