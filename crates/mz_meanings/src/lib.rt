//! The types of results and definientia, read with what the article has left.
#![tactic(auto)]

pub mod formula_definientia;
pub mod it;
pub mod read_meaning;
pub mod results;
pub mod term_definientia;
