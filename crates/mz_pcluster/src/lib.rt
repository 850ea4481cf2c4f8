//! The parser of clusters of registrations, exact as that of patterns is.
#![tactic(auto)]

pub mod clusters;
pub mod groups;
pub mod kinds;
pub mod parts;
