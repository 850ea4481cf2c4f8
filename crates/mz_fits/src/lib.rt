//! What fits by typing clauses where constants are in force, and the matching of terms by it.
#![tactic(auto)]

pub mod fits;
pub mod fixed;
pub mod laws;
pub mod matches;
