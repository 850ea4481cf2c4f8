//! The disjuncts of a problem.
#![tactic(auto)]

pub mod constants;
pub mod count;
pub mod disjuncts;
pub mod laws;
pub mod nf_fault;
pub mod problem;
pub mod product;
pub mod single;
pub mod split;
