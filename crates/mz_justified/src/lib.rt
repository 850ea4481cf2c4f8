//! What justifications without a proof give: what they cite, and the obligation of their statement.
#![tactic(auto)]

pub mod grounds;
pub mod justified;
pub mod kept;
pub mod proof_fault;
pub mod walker;
