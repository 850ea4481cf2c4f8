//! Formulas and sentences of trees, read in a context of an environment.
#![tactic(auto)]

pub mod atoms;
pub mod declared;
pub mod formulas;
pub mod sentence;
