//! The steps of the skeleton of a reasoning, performed: `let`, `assume`, `given` and `take`.
#![tactic(auto)]

pub mod examples;
pub mod hypotheses;
pub mod skeleton;
pub mod variables;
