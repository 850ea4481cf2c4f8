//! The trees of texts.
use crate::marked::BEFORE;
use crate::texts::tokens_of;
use mz_pexpr::forms::{Expression, Form};
use mz_pexpr::parse::expression;
use mz_samples::fault::SampleFault;
use std::alloc::Global;

/// The expression of this form with which the text behind `begin` begins, where `A` is the vocabulary with these symbols.
pub fn expression_of(
    alloc: Global,
    symbols: &[u8],
    text: &[u8],
    form: Form,
) -> Result<Expression, SampleFault> {
    let tokens = tokens_of(alloc, symbols, text)?;
    if tokens.items.len() < BEFORE {
        return Err(SampleFault::Text);
    }
    match expression(alloc, &tokens, BEFORE, form) {
        Ok((tree, _)) => Ok(tree),
        Err(_) => Err(SampleFault::Text),
    }
}
