//! Properties behind the headings of definitions.
#![tactic(auto)]

pub mod forms;
pub mod properties;
