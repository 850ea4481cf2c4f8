//! Clauses, the ground part of a disjunct, and the facts over it.
#![tactic(auto)]

mod add_expressions;
mod add_terms;
pub mod clause;
pub mod clauses;
pub mod expression_place;
pub mod fact_set;
pub mod ground;
pub mod ground_atom;
pub mod ground_atoms;
pub mod ground_equation;
pub mod ground_equations;
pub mod ground_fault;
pub mod ground_part;
pub mod ground_term;
pub mod ground_terms;
pub mod hash_places;
pub mod head_places;
mod instances;
pub mod laws;
pub mod layer_ends;
mod matching;
mod nodes;
pub mod places;
pub mod trigger;
pub mod trigger_matching;
pub mod trigger_places;
