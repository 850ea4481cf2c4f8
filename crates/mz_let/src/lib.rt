//! The `let` of a block of definitions, notations or registrations.
#![tactic(auto)]

pub mod loci;
