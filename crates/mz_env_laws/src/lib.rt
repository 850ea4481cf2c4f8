//! Laws of what environment parts let in: each is the contract of a function that does nothing.
#![tactic(auto)]

pub mod laws;
