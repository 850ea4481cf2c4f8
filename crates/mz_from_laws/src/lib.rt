//! Law: what is found to fit at a `from` derives.
#![tactic(auto)]

pub mod laws;
