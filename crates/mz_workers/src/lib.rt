//! Workers over a desk.
#![tactic(auto)]

pub mod board;
pub mod faulty;
pub mod run_all;
pub mod work;
