//! Blocks of steps.
use mz_context::context::Mark;
use mz_core::statement::Statement;
use mz_now::now_part::NowParts;

/// What is put aside while a block lasts: how far the lists of the context reached, the statement just before, and what
/// `thesis` was read to.
#[derive(Drop)]
pub struct Outside {
    pub mark: Mark,
    pub previous: Option<Statement>,
    pub thesis: Option<Statement>,
}

/// A reasoning: a proof, whose thesis is that of the context, or a `now`, with what its steps so far state. A case of a
/// split is a proof of the same thesis.
#[derive(Drop)]
pub enum Block {
    Proof,
    Now(NowParts),
}

/// What a step does to its block.
#[derive(Drop)]
pub enum Effect {
    /// The thesis stays, and so does what a `now` states.
    Unchanged,
    /// This is left of the thesis.
    Leaves(Statement),
    /// A `now` states this, too.
    Says(NowParts),
}
