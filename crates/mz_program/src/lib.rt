//! What the program does with its words.
#![tactic(auto)]

pub mod checker;
pub mod folder;
pub mod laws;
pub mod program;
pub mod run;
#[cfg(test)]
mod tests;
