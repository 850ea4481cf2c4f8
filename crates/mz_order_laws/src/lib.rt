//! Laws of orders and of made articles.
#![tactic(auto)]

pub mod laws;
