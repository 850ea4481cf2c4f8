//! The facts of a disjunct, closed by passes over all nodes and rules: the plain form.
#![tactic(auto)]

pub mod close;
pub mod facts;
