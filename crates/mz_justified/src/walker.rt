//! What a walk over a reasoning works with, the same at each of its steps.
use mz_base::place::Place;
use mz_environment::environment::Environment;
use mz_obligations::obligation::Extent;
use std::alloc::Global;

/// Where values lie, what may be used, and how much of the article stood above the reasoning.
#[derive(Clone, Copy)]
pub struct Walker<'a> {
    pub alloc: Global,
    pub env: &'a Environment,
    pub at: Extent,
}

/// How a step begins: the place of its first token, and whether `then` or `hence` links it to the statement just before.
#[derive(Clone, Copy)]
pub struct Opening {
    pub first: Place,
    pub linked: bool,
}
