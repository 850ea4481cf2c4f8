//! Blocks of definitions and of notations, taken.
#![tactic(auto)]

pub mod blocks;
pub mod defining;
