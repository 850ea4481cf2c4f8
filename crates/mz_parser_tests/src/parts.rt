//! Tests of the parsers of proofs.
mod justifications;
mod propositions;
mod steps;
mod texts;
