//! Laws of what is let in and of own items behind it: clauses say what rows and structures do by which chains go.
#![tactic(auto)]

pub mod laws;
