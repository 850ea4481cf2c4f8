//! The free reserved variables of a sentence.
#![tactic(auto)]

pub mod free;
pub mod name_list;
pub mod occurrences;
