//! The correctness conditions behind a heading.
#![tactic(auto)]

pub mod conditions;
