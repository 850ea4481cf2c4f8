//! Laws of where the reading of an article's items stands: what is accepted keeps a sound library sound.
#![tactic(auto)]

pub mod kinds;
pub mod laws;
