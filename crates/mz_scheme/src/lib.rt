//! Schemes, taken.
#![tactic(auto)]

pub mod heading;
pub mod parameters;
pub mod stating;
