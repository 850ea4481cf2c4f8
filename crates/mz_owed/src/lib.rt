//! The conditions that an item owes.
#![tactic(auto)]

pub mod owed;
