//! The clauses that the items of an article give to others.
#![tactic(auto)]

pub mod clause_groups;
pub mod clauses_of;
pub mod definition_clauses;
pub mod groups;
pub mod groups_of;
pub mod guards;
pub mod item_groups;
pub mod property_clauses;
pub mod registration_clauses;
pub mod same_types;
pub mod structure_clauses;
pub mod triggers;
