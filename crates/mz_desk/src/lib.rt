//! The desk: what workers share under a lock.
#![tactic(auto)]

pub mod claim;
pub mod desk;
pub mod differences;
pub mod input;
pub mod job;
pub mod laws;
pub mod look;
