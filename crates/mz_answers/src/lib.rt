//! What fits, with the answers kept.
#![tactic(auto)]

pub mod answer;
pub mod answers;
pub mod hashes;
pub mod kept;
