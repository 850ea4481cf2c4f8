//! The marks of commas.
#![tactic(auto)]

pub mod marks;
mod pending_mark;
mod suffix;
pub mod token_class;
