//! Vocabularies, read line by line.
#![tactic(auto)]

pub mod line;
pub mod read;
pub mod spelled;
pub mod symbol;
pub mod voc_fault;
pub mod vocabulary;
