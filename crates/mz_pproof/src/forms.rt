//! What a parser of proofs is asked for, and what it gives.
use mz_tree_proof::propositions::PropositionTree;
use mz_tree_proof::reasoning::{JustTree, StatementTree, Steps};

/// The four forms of proofs.
#[derive(Clone, Copy, Debug, PartialEq, Eq)]
pub enum ProofForm {
    Proposition,
    Justification,
    Statement,
    Reasoning,
}

/// A tree of one of the four forms.
#[derive(Drop)]
pub enum ProofTree {
    Proposition(PropositionTree),
    Justification(JustTree),
    Statement(StatementTree),
    Reasoning(Steps),
}
