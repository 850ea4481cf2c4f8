//! What the references of a justification cite.
#![tactic(auto)]

pub mod cited;
pub mod numerals;
