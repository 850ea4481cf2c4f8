//! The outcome of an article.
#![tactic(auto)]

pub mod check;
pub mod export;
pub mod told;
