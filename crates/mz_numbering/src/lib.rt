//! Numbers of ground terms and atoms: layer by layer, and within a layer in the order derived from the declarations.
#![tactic(auto)]

pub mod compare;
mod entry;
pub mod numbering;
#[cfg(test)]
mod tests;
