//! The parser of headings of definitions, exact as that of patterns is.
#![tactic(auto)]

pub mod headings;
pub mod modes;
