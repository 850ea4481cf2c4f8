//! What a parse of an article promises, and the law that it gives one thing at most.
#![tactic(auto)]

pub mod laws;
