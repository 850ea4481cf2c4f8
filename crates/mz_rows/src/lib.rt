//! The rows of a corpus: how each article stands, what the report tells of it, and the library.
#![tactic(auto)]

pub mod blocked;
pub mod counts;
pub mod laws;
pub mod links;
pub mod scans;
pub mod standing;
pub mod table;
