//! Types: what fits in a context of an environment, and the chain of a term there.
#![tactic(auto)]

pub mod chain;
pub mod known;
pub mod laws;
pub mod radices;
pub mod row_types;
pub mod structure_types;
pub mod types;
