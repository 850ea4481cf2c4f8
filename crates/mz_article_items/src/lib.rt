//! The items of an article, read one after another with their reasonings.
#![tactic(auto)]

pub mod fault;
pub mod items;
pub mod parts;
