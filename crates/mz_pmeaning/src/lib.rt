//! The parser of definientia, with their labels and cases, exact as that of patterns is.
#![tactic(auto)]

pub mod cases;
pub mod meanings;
