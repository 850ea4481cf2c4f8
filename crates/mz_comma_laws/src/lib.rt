//! Behind which formulas a list comma goes on.
#![tactic(auto)]

pub mod laws;
