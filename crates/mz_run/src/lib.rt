//! A run of the program, for any checker.
#![tactic(auto)]

pub mod check;
pub mod laws;
pub mod output;
pub mod run;
pub mod texts;
