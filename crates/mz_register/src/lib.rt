//! What comes of blocks of registrations, and the call that takes them.
#![tactic(auto)]

pub mod register_items;
