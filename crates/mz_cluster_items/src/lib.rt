//! What clusters make: the items of registrations, under the loci of their block.
#![tactic(auto)]

pub mod items;
pub mod limits;
pub mod over_loci;
