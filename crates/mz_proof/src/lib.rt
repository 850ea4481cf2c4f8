//! The walk over the steps of reasonings, with the reasonings that stand in them.
#![tactic(auto)]

mod ahead;
mod parts;
pub mod proving;
mod walk;
