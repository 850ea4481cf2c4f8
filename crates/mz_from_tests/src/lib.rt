//! Uses of schemes with their verdicts, worked out by hand.
#![tactic(auto)]

#[cfg(test)]
mod rows;
#[cfg(test)]
mod tests;
