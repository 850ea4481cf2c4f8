//! Terms, formulas and sequents of first-order logic, and what is derivable.
#![tactic(auto)]

pub mod beyond;
pub mod bodies;
pub mod capped;
pub mod conjunction;
pub mod constants;
pub mod disjunct;
pub mod disjuncts;
pub mod formula;
pub mod formulas;
pub mod indices;
pub mod instance_check;
pub mod instances;
pub mod kind;
pub mod laws;
pub mod letters;
pub mod literal;
pub mod literals;
pub mod negation;
pub mod order;
pub mod replacement;
pub mod rule;
pub mod sameness;
pub mod sequent;
pub mod sequents;
pub mod set_laws;
pub mod shift;
pub mod substitution;
pub mod sym;
pub mod term;
pub mod texts;
