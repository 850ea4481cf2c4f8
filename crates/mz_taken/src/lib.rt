//! What comes of a part of an article: obligations and what stands behind it, or why it isn't taken.
#![tactic(auto)]

pub mod item_fault;
