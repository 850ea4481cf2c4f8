//! Comparisons of items and exports, which take no memory.
#![tactic(auto)]

pub mod cases;
pub mod definitions;
pub mod items;
pub mod lists;
pub mod notations;
pub mod properties;
pub mod registrations;
pub mod schemes;
pub mod structures;
