//! When an instance of a universal is refuted by facts.
#![tactic(auto)]

pub mod answer;
pub mod build;
pub mod distinct;
pub mod fact_index;
pub mod laws;
pub mod refuted;
pub mod work;
