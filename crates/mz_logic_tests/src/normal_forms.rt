//! Tests of `mz_nf`: small problems with their disjuncts; problems for tests, read from their texts.
pub mod samples;
mod tests;
