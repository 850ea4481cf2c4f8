//! Notations: further patterns for what others read to.
#![tactic(auto)]

pub mod blocks;
pub mod over;
pub mod patterns;
pub mod reading;
