//! The parser of the parts of items that hold neither a proof nor a definiens, exact as that of patterns is.
#![tactic(auto)]

pub mod directives;
pub mod notations;
pub mod reserves;
pub mod structures;
