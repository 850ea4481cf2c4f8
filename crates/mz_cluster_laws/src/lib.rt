//! Laws of headings of registrations.
#![tactic(auto)]

pub mod laws;
