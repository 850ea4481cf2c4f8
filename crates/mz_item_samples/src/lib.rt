//! Types, constants, clauses, statements, items, environments and contexts, read from their texts, and the texts of
//! statements, types and refusals. For tests alone.
#![tactic(auto)]

pub mod contexts;
pub mod environments;
pub mod items;
pub mod refusals;
pub mod statements;
pub mod texts;
pub mod types;
