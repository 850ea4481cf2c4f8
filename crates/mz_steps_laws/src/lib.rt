//! Laws of steps in contexts: whoever derives what is left behind a step has derived the thesis before it.
#![tactic(auto)]

pub mod laws;
