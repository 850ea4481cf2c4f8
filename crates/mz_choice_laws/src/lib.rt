//! Laws of chains and of the choice among notations: from known constants come known constants alone.
#![tactic(auto)]

pub mod laws;
