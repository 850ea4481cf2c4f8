//! The parser of formulas, exact as those of terms and types are.
#![tactic(auto)]

pub mod formulas;
pub mod parse;
