//! The words of the program.
#![tactic(auto)]

pub mod given;
pub mod order;
pub mod program;
#[cfg(test)]
mod tests;
pub mod word_fault;
pub mod words;
