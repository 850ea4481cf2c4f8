//! The axioms, the exports of the built-in articles, sound libraries, and what a checker promises.
#![tactic(auto)]

pub mod axioms;
pub mod built_in;
pub mod checker;
pub mod exports;
pub mod laws;
pub mod notations;
pub mod replacement;
pub mod universes;
