//! How refusals of environment parts and tokens are told.
#![tactic(auto)]

pub mod fault_of;
