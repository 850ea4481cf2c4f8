//! The tokens of a text with their marks, as the functions of the parsers are given them.
use crate::texts::tokens_behind_begin;
use mz_base::place::Place;
use mz_base::token::MarkedToken;
use mz_pexpr::marked_tokens::marked_tokens;
use mz_pterm::reader::Reader;
use mz_samples::fault::SampleFault;
use std::alloc::Global;

/// How many tokens stand before the first one behind `begin`.
pub const BEFORE: usize = 5;

/// The tokens of an article with their marks.
#[derive(Drop)]
pub struct Marked {
    pub items: Vec<MarkedToken>,
    /// The place just after the text's last byte.
    pub end: Place,
}

/// The tokens of an article with this text behind its `begin`. The text's first byte stands in column 31.
pub fn marked_behind_begin(alloc: Global, text: &[u8]) -> Result<Marked, SampleFault> {
    let tokens = tokens_behind_begin(alloc, text)?;
    let items = marked_tokens(alloc, &tokens)?;
    if items.len() < BEFORE {
        return Err(SampleFault::Text);
    }
    Ok(Marked {
        items,
        end: tokens.end,
    })
}

/// The tokens behind the first `count`.
fn rest_of(tokens: &[MarkedToken], count: usize) -> &[MarkedToken] {
    &tokens[count.min(tokens.len())..]
}

/// A reader of the tokens behind `begin`.
pub fn reader_behind_begin<'a>(alloc: Global, all: &'a Marked) -> Reader<'a> {
    Reader {
        rest: rest_of(all.items.as_slice(), BEFORE),
        alloc,
    }
}
