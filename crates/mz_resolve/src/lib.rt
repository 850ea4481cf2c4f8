//! Terms, types, formulas and sentences that are part of no other expression: what they are read to, and what their article
//! has left then.
#![tactic(auto)]

pub mod budget;
pub mod calls;
pub mod resolve_fault;
