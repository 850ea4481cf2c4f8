//! The text of a run's report.
#![tactic(auto)]

pub mod report;
