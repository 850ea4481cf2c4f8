//! Texts that are gathered from a shelf, what they depend on, and the order in which they are checked.
#![tactic(auto)]

pub mod article;
pub mod ascending;
pub mod corpus;
pub mod dependents;
pub mod directives;
pub mod fit;
pub mod found;
pub mod gather;
pub mod gather_fault;
pub mod gathering;
pub mod laws;
pub mod link;
pub mod made;
pub mod name_set;
pub mod order;
pub mod ordering;
pub mod same;
pub mod source;
pub mod taking;
