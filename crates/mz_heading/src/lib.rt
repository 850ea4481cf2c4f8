//! Headings of definitions with what is written behind them: of predicates and attributes, of functors, modes and abbreviations.
#![tactic(auto)]

pub mod atoms;
pub mod definientia;
pub mod functors;
pub mod headed;
pub mod limits;
pub mod modes;
pub mod owing;
pub mod results;
