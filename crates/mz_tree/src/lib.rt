//! Trees of expressions, and the definitions of the tokens that they are spelled with.
#![tactic(auto)]

pub mod chain;
pub mod expressions;
pub mod lists;
pub mod nodes;
pub mod places;
pub mod word;
