//! The fields of a structure, as its item has them.
#![tactic(auto)]

pub mod fields;
