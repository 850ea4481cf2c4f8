//! Fields of structures: what stands for them in their types, and their order.
#![tactic(auto)]

pub mod order;
pub mod values;
