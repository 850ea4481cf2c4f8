//! Where the reading of an article's items stands, and how items and statements change it.
#![tactic(auto)]

pub mod changes;
pub mod counts;
pub mod labels;
pub mod standing;
pub mod start;
