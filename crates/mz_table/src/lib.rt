//! Lists with tables.
#![tactic(auto)]

pub mod key_of;
pub mod table;
