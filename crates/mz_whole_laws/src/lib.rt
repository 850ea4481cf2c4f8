//! Laws of whole contexts: reasonings in them are sound, since what is read there stands.
#![tactic(auto)]

pub mod laws;
