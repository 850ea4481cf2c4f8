//! The table of steps: what each step of a reasoning makes of the thesis, of what a `now` states, and of the context;
//! what has to be justified, and what a justification is given.
#![tactic(auto)]

pub mod block;
pub mod changes;
pub mod effects;
pub mod equalities;
pub mod laws;
pub mod premises;
pub mod read_step;
pub mod rows;
