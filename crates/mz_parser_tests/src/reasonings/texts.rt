//! What the parsers of proofs answer to a text.
use mz_base::token::MarkedToken;
use mz_parser_samples::answer;
use mz_parser_samples::answer::Answer;
use mz_parser_samples::marked::BEFORE;
use mz_parser_samples::texts::tokens_behind_begin;
use mz_pexpr::marked_tokens::marked_tokens;
use mz_pproof::forms::{ProofForm, ProofTree};
use mz_pproof::parse::proof;
use mz_tree_spelling::tree::Spell;
use std::alloc::Global;
use std::process::Abort;

/// What a tree that was read answers: whether it spells the tokens up to the one with the number.
fn of_tree(
    rt: &impl Abort,
    alloc: Global,
    tree: &ProofTree,
    all: &[MarkedToken],
    until: usize,
) -> Answer {
    let mut spelled = Vec::new(alloc);
    match tree {
        ProofTree::Proposition(tree) => tree.spell(alloc, &mut spelled).expect(rt, "memory"),
        ProofTree::Justification(tree) => tree.spell(alloc, &mut spelled).expect(rt, "memory"),
        ProofTree::Statement(tree) => tree.spell(alloc, &mut spelled).expect(rt, "memory"),
        ProofTree::Reasoning(tree) => tree.spell(alloc, &mut spelled).expect(rt, "memory"),
    }
    answer::taken(spelled.as_slice(), all, BEFORE, until)
}

/// What the parser answers to this text.
pub fn answered(rt: &impl Abort, alloc: Global, form: ProofForm, text: &[u8]) -> Answer {
    let tokens = tokens_behind_begin(alloc, text).expect(rt, "tokens");
    if tokens.items.len() < BEFORE {
        return Answer::TooFew;
    }
    let all = marked_tokens(alloc, &tokens).expect(rt, "memory");
    match proof(alloc, &tokens, BEFORE, form) {
        Ok(answer) => {
            let (tree, until) = answer;
            of_tree(rt, alloc, &tree, all.as_slice(), until)
        }
        Err(fault) => answer::refused(&fault),
    }
}
