//! The parser of propositions, hypotheses and conditions, exact as that of formulas is.
#![tactic(auto)]

pub mod parse;
pub mod propositions;
