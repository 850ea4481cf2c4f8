//! What the environment part of an article lets in.
#![tactic(auto)]

pub mod accommodate;
pub mod articles;
pub mod directed;
pub mod directed_names;
pub mod env_fault;
pub mod faults;
pub mod laws;
pub mod registrations;
pub mod shares;
pub mod symbols;
pub mod visits;
