//! What comes of blocks of definitions and of notations, and the calls that take them.
#![tactic(auto)]

pub mod define_items;
