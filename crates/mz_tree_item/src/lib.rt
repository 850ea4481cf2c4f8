//! Trees of items and articles, and the definitions of their spelling.
#![tactic(auto)]

pub mod article;
pub mod definition;
pub mod registration;
pub mod schemes;
