//! Trees of propositions, justifications, statements and steps, and the definitions of their spelling.
#![tactic(auto)]

pub mod equality_step;
pub mod introduction;
pub mod places;
pub mod propositions;
pub mod reasoning;
pub mod references;
pub mod skeleton;
