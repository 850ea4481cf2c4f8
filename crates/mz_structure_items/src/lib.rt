//! The item of a structure, from what was read of it.
#![tactic(auto)]

pub mod aggregates;
pub mod closed;
pub mod items;
pub mod read_fields;
pub mod selectors;
pub mod symbols;
