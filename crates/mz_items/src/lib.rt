//! What the items of an article owe and grant.
#![tactic(auto)]

pub mod agreements;
pub mod cases;
pub mod condition;
pub mod definition_rows;
pub mod definition_theses;
pub mod forms;
pub mod granted;
pub mod laws;
pub mod loci;
pub mod notations_of;
pub mod owed;
pub mod property_rows;
pub mod quantified;
pub mod redefinition_rows;
pub mod registration_rows;
pub mod scheme_rows;
pub mod set_term_rows;
pub mod structure_rows;
pub mod theses;
