//! Following a formula of a scheme beside another one, which fixes letters; and what letters make of terms and types.
#![tactic(auto)]

pub mod following;
pub mod instances;
pub mod places;
