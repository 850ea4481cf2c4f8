//! Compound statements within the limits on nodes and depth: the connectives, quantifiers over declared variables, what a
//! type says of a term.
#![tactic(auto)]

pub mod bound;
pub mod joined;
pub mod said;
