//! The parser of patterns of definitions and notations, exact as that of types is.
#![tactic(auto)]

pub mod names;
pub mod patterns;
pub mod symbols;
pub mod words;
