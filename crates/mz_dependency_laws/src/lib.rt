//! Laws: what an article may rest on whose environment part was let in.
#![tactic(auto)]

pub mod laws;
