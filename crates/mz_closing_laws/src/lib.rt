//! Laws of what is stated at loci.
#![tactic(auto)]

pub mod laws;
