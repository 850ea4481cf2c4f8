//! Laws of headings of definitions.
#![tactic(auto)]

pub mod laws;
