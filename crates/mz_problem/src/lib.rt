//! The problem of a statement that is to be justified.
#![tactic(auto)]

pub mod added;
pub mod asked;
pub mod opened;
