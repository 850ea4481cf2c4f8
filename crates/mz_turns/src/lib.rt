//! The verdicts of a corpus, and the turns by which workers make them.
#![tactic(auto)]

pub mod laws;
pub mod turn;
