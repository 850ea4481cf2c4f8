//! Formulas and sentences read over a small environment, worked out by hand from the rules.
mod environment;
mod tests;
