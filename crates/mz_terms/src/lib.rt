//! Terms, adjectives and types of trees, read in a context of an environment.
#![tactic(auto)]

pub mod adjectives;
pub mod bases;
pub mod laws;
pub mod neighbour;
pub mod parts;
pub mod terms;
pub mod types;
pub mod values;
