//! What a `now` states by its steps.
#![tactic(auto)]

pub mod hidden;
pub mod now_part;
pub mod stated;
