//! Tests of `mz_corpus`.
mod corpora;
mod large;
mod limits;
mod orders;
mod samples;
