//! The parser of propositions, justifications, statements and reasonings, exact as that of expressions is.
#![tactic(auto)]

pub mod equations;
pub mod forms;
pub mod look;
pub mod parse;
pub mod reasonings;
