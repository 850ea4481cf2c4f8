//! The parser of formulas that have no formula in them, exact as those of terms and types are.
#![tactic(auto)]

pub mod atoms;
