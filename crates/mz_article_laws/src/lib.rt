//! Laws of articles: an article has one outcome at most.
#![tactic(auto)]

pub mod laws;
