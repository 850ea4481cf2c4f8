//! What is found at a `from`: whether a scheme fits a statement and what is cited.
#![tactic(auto)]

pub mod kept;
pub mod laws;
pub mod letters;
pub mod verdict;
