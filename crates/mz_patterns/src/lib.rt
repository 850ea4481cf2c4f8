//! The visible loci of patterns, and patterns.
#![tactic(auto)]

pub mod functors;
pub mod patterns;
pub mod visible;
