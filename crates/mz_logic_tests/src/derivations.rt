//! Tests of the check of derivations.
mod tests;
mod texts;
