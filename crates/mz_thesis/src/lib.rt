//! The thesis of a proof after a step: unfoldings, the table of steps.
#![tactic(auto)]

pub mod apply;
pub mod fresh;
pub mod laws;
pub mod rows;
pub mod same_parts;
pub mod sought;
pub mod step;
pub mod thesis_fault;
pub mod unfolds;
