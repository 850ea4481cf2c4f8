//! Terms, formulas and what is made of them, read from the texts that listings have. For tests alone.
#![tactic(auto)]

pub mod fault;
pub mod forms;
pub mod parts;
pub mod pieces;
mod reader;
pub mod symbols;
#[cfg(test)]
mod tests;
pub mod texts;
