//! What parsers answer by the trees that they read behind `begin`.
use crate::answer::{Answer, refused, taken};
use crate::marked::{BEFORE, Marked};
use mz_base::token::MarkedToken;
use mz_forms::refusal::Refusal;
use mz_pterm::parse::{ParseFault, fault};
use mz_tree_copies::tree::Copied;
use mz_tree_spelling::tree::Spell;
use std::alloc::{AllocError, Global};

/// What a copy of the tree is spelled by.
pub fn spelled<T: Copied + Spell>(alloc: Global, tree: &T) -> Result<Vec<MarkedToken>, AllocError> {
    let copy = tree.copy(alloc)?;
    let mut spelled = Vec::new(alloc);
    copy.spell(alloc, &mut spelled)?;
    Ok(spelled)
}

/// The answer where the tokens behind `begin` up to the one with the number were taken for this tree.
pub fn taken_behind_begin<T: Copied + Spell>(
    alloc: Global,
    tree: &T,
    tokens: &[MarkedToken],
    until: usize,
) -> Result<Answer, AllocError> {
    let spelled = spelled(alloc, tree)?;
    Ok(taken(spelled.as_slice(), tokens, BEFORE, until))
}

/// The answer of a parse, which gives a tree and the number of the token behind it.
pub fn parsed<T: Copied + Spell>(
    alloc: Global,
    all: &Marked,
    outcome: Result<(T, usize), ParseFault>,
) -> Result<Answer, AllocError> {
    match outcome {
        Ok((tree, until)) => taken_behind_begin(alloc, &tree, all.items.as_slice(), until),
        Err(why) => Ok(refused(&why)),
    }
}

/// The answer where a tree is read, or refused, and these tokens are left.
pub fn told<T: Copied + Spell>(
    alloc: Global,
    all: &Marked,
    rest: &[MarkedToken],
    outcome: Result<T, Refusal>,
) -> Result<Answer, AllocError> {
    match outcome {
        Ok(tree) => taken_behind_begin(
            alloc,
            &tree,
            all.items.as_slice(),
            all.items.len().saturating_sub(rest.len()),
        ),
        Err(refusal) => Ok(refused(&fault(rest, all.end, refusal))),
    }
}
