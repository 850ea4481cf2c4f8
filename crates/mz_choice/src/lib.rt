//! The choice among notations, and what covers a type's adjectives.
#![tactic(auto)]

pub mod choice;
pub mod cover;
pub mod fresh;
pub mod laws;
pub mod resolve;
