//! The listing of what the items of accepted articles owe and grant.
#![tactic(auto)]

pub mod listing;
