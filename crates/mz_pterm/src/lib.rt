//! The parser of terms. It is exact: it gives the one tree that is spelled, or the place of the first token with which no
//! terms begin, or of the first token that is nested too deep, whichever comes first.
#![tactic(auto)]

pub mod parse;
pub mod reader;
pub mod sign;
pub mod terms;
