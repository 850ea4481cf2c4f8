//! Loci of blocks: the constants that are declared in a block, and what stands under them.
#![tactic(auto)]

pub mod fixed;
pub mod loci;
