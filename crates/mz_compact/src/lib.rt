//! Compact statements: how one is read, where it fits, and how the further sides of an iterative equality are justified; what a
//! `now` states, and how a case begins.
#![tactic(auto)]

pub mod ahead;
pub mod begun;
pub mod cases;
pub mod compact;
pub mod earlier;
pub mod equalities;
pub mod nows;
pub mod sides;
