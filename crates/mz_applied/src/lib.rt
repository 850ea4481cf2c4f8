//! Symbols applied to arguments that are read already: what they are read to, and why to nothing.
#![tactic(auto)]

pub mod application;
pub mod applied;
pub mod laws;
pub mod meant;
pub mod private;
pub mod within;
