//! Laws of unfoldings and of the table of steps: whoever derives what is left behind a step has derived the thesis.
#![tactic(auto)]

pub mod laws;
