//! Obligations: what has to be decided for a justification.
#![tactic(auto)]

pub mod obligation;
pub mod spend_obligation;
