//! Laws of covers: a type that is covered is inhabited.
#![tactic(auto)]

pub mod laws;
