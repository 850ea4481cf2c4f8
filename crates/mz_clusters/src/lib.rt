//! Headings of registrations: types whose adjectives nothing has to cover, a cluster's adjectives, and whole clusters.
#![tactic(auto)]

pub mod clusters;
pub mod headings;
