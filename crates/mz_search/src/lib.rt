//! The search for classes of the variables that refute a formula by rows of facts.
#![tactic(auto)]

pub mod branch;
mod branches;
mod estimate;
pub mod goal;
mod hopeless;
mod kept;
mod marks;
mod open_variables;
pub mod parted;
pub mod pick;
pub mod search;
pub mod settle;
