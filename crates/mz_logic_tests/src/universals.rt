//! Tests of `mz_refute` on small disjuncts.
mod tables;
mod tests;
