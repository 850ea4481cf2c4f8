//! The walk over the steps of reasonings, as far as no reasoning stands in them: one step in its block, steps one after
//! another, the statements that introduce names, and how blocks begin and end.
#![tactic(auto)]

pub mod begun;
pub mod blocks;
pub mod cases;
pub mod fault;
pub mod introductions;
pub mod labels;
pub mod linked;
pub mod perform;
pub mod private;
pub mod read_steps;
