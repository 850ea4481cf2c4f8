//! Laws of accepted articles: what is accepted keeps a sound library sound.
#![tactic(auto)]

pub mod laws;
