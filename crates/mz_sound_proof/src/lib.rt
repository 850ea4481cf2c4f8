//! Reasonings taken, with what their obligations are worth.
#![tactic(auto)]

pub mod sound;
