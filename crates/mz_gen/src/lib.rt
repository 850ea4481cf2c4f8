//! A made library, for trials of any size.
#![tactic(auto)]

pub mod made;
#[cfg(test)]
mod tests;
