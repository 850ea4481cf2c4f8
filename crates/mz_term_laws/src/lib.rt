//! Laws of contexts and of terms, adjectives and types: what is read has only constants in force.
#![tactic(auto)]

pub mod laws;
