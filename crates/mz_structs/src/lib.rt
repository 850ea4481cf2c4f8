//! Structures, taken.
#![tactic(auto)]

pub mod ancestors;
pub mod fields;
pub mod heading;
pub mod structuring;
