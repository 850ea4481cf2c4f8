//! Laws of steps one after another, of whole blocks, and of justifications: where the obligations are met, what was to
//! be proved derives.
#![tactic(auto)]

pub mod laws;
