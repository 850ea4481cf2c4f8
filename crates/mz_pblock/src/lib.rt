//! The parser of conditions and properties, of blocks of registrations, of theorems and of schemes, exact as that of proofs is.
#![tactic(auto)]

pub mod conditions;
pub mod registrations;
pub mod schemes;
pub mod words;
