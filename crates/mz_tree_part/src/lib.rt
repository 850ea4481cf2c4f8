//! Trees of the parts of items that hold no proof: notations, clusters, reservations, parameters of schemes and directives,
//! and the definitions of their spelling.
#![tactic(auto)]

pub mod cluster;
pub mod directive;
pub mod notation;
pub mod parameter;
pub mod reserve;
pub mod words;
