//! The walk over the steps of reasonings: what it means that a reasoning is taken, which obligations it makes, and what its
//! first refusal is. The calls that take one are a trait.
#![tactic(auto)]

pub mod compact;
pub mod prove_steps;
