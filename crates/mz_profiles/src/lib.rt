//! The verdict on a problem under a profile: definitions and laws.
#![tactic(auto)]

pub mod laws;
