//! The parser of references and of justifications without a proof, exact as that of expressions is.
#![tactic(auto)]

pub mod keyword;
pub mod parse;
pub mod references;
pub mod simple;
pub mod words;
