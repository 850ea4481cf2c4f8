//! Laws of reasonings: where the obligations of a proof's steps are met, its thesis derives.
#![tactic(auto)]

pub mod laws;
