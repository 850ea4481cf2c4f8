//! What private functors and predicates are read to is determined.
#![tactic(auto)]

pub mod laws;
