//! The parts of steps, read with what the article has left: declarations, propositions, what they make together, and terms
//! that get names.
#![tactic(auto)]

pub mod declarations;
pub mod definitions;
pub mod described;
pub mod joined;
pub mod named;
pub mod propositions;
pub mod retyped;
pub mod types;
