//! Laws of properties behind the headings of definitions.
#![tactic(auto)]

pub mod laws;
