//! What a justification without a proof gives: statements, or a scheme and what is cited for its premises.
#![tactic(auto)]

pub mod given;
pub mod schemes;
