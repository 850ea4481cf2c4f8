//! What comes of a scheme, and the call that takes it.
#![tactic(auto)]

pub mod state_schemes;
