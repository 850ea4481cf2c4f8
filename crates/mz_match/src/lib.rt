//! Matching of literals with rows of facts.
#![tactic(auto)]

pub mod assignment;
pub mod assignments;
pub mod by_class;
mod congruent;
mod evaluate;
pub mod literals;
mod match_terms;
pub mod row;
pub mod rows;
pub mod table;
pub mod value;
pub mod values;
