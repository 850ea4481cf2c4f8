//! Copies of items, for who holds one beside its article.
#![tactic(auto)]

pub mod cases;
pub mod definitions;
pub mod items;
pub mod properties;
pub mod registrations;
pub mod schemes;
pub mod structures;
