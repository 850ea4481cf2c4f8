//! Laws of blocks and their loci.
#![tactic(auto)]

pub mod laws;
