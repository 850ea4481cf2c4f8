//! Trees of patterns, definientia, structures and headings of definitions, and the definitions of their spelling.
#![tactic(auto)]

pub mod heading;
pub mod meaning;
pub mod patterns;
pub mod structure;
