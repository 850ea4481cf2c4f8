//! The parser of expressions, over the tokens of a whole text. It is exact: it gives the one tree that is spelled, or the
//! place of the first token with which no tree begins, or of the first one that is nested too deep, whichever comes first.
#![tactic(auto)]

pub mod forms;
pub mod marked_tokens;
pub mod parse;
