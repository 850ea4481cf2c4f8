//! Private functors and predicates as they are defined: the types of their places, and their bodies.
#![tactic(auto)]

pub mod bodies;
pub mod inside;
pub mod private;
