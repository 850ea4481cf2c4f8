//! What a text is before its items are read: its tree and its environment, or the first fault in front of them.
#![tactic(auto)]

pub mod front;
pub mod front_fault;
pub mod laws;
pub mod stages;
pub mod told;
