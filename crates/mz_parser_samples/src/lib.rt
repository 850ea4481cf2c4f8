//! The tokens and trees of texts, and what parsers answer to them. For tests alone.
#![tactic(auto)]

pub mod answer;
pub mod marked;
pub mod places;
pub mod spelled;
pub mod texts;
pub mod trees;
