//! The step that decides whether a conclusion is obvious from premises.
#![tactic(auto)]

pub mod by;
pub mod examine;
pub mod laws;
