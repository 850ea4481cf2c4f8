//! Obligations judged: which of them are met, and the faults of the others in the order of the text.
#![tactic(auto)]

pub mod judge;
pub mod judge_all;
pub mod laws;
pub mod told;
