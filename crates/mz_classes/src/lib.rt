//! The facts of a disjunct by numbered classes: congruence closure with a work list, and the numbers of the terms of
//! each class and of the atoms of each symbol and sign.
#![tactic(auto)]

mod answers;
pub mod classes;
pub mod close_classes;
mod labels;
mod lists;
mod member_lists;
mod number_lists;
pub mod numbers;
pub mod propagate;
pub mod roots;
mod signed_lists;
mod sym_lists;
mod work;
