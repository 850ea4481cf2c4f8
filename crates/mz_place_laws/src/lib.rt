//! Where the faults of a text and the tokens of its tree stand.
#![tactic(auto)]

pub mod laws;
