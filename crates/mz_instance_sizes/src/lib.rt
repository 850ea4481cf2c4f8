//! How large instances are, counted without making them.
#![tactic(auto)]

pub mod expansions;
pub mod instances;
pub mod size;
pub mod statements;
pub mod types;
pub mod within;
