//! What reservations reserve is determined.
#![tactic(auto)]

pub mod laws;
