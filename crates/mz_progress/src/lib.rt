//! How far a run is, shown on a terminal while it lasts.
#![tactic(auto)]

pub mod display;
pub mod progress;
pub mod watched;
