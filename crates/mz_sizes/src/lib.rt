//! How large what is read may be.
#![tactic(auto)]

pub mod depth;
pub mod keeps;
pub mod nodes;
