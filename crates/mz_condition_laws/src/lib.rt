//! Laws of conditions behind a heading.
#![tactic(auto)]

pub mod laws;
