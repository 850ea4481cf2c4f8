//! The parser of adjectives, types and declarations, exact as that of terms is.
#![tactic(auto)]

pub mod adjectives;
pub mod declarations;
pub mod parse;
pub mod types;
