//! The tokens of texts.
use mz_base::name::Name;
use mz_base::text::Text;
use mz_base::token::Tokens;
use mz_base::vocabularies::{Vocabularies, VocabularyText};
use mz_lex::head::head;
use mz_lex::table::table;
use mz_lex::tokens::tokens;
use mz_samples::fault::SampleFault;
use std::alloc::Global;
use std::sync::Arc;

/// A structure, brackets, a mode, functors, a predicate, a selector and an attribute.
pub const SYMBOLS: &[u8] = b"Gstr\nKlb\nLrb\nLrc\nMmod\nO+\nO*\nRless\nUcar\nVodd\n";

/// The vocabulary of this name alone, with these symbols.
pub fn vocabulary(alloc: Global, name: &[u8], symbols: &[u8]) -> Result<Vocabularies, SampleFault> {
    let name = Name::read(name).ok().ok_or(SampleFault::Text)?;
    let text = Text::from_slice(alloc, symbols)?;
    let text = Arc::new(alloc, text)?;
    let mut items = Vec::new(alloc);
    items.push(VocabularyText {
        name,
        text: Some(text),
    })?;
    Ok(Vocabularies { items })
}

/// The tokens of an article, where `A` is the vocabulary with these symbols.
pub fn article_tokens(
    alloc: Global,
    symbols: &[u8],
    article: &[u8],
) -> Result<Tokens, SampleFault> {
    let environment = head(alloc, article).ok().ok_or(SampleFault::Text)?;
    let vocabularies = vocabulary(alloc, b"A", symbols)?;
    let table = table(alloc, &vocabularies, &environment);
    let table = table.ok().ok_or(SampleFault::Text)?;
    tokens(alloc, &table, article).ok().ok_or(SampleFault::Text)
}

/// The tokens of an article that consists of the two texts, where `A` is the vocabulary with these symbols.
fn tokens_behind(
    alloc: Global,
    front: &[u8],
    symbols: &[u8],
    text: &[u8],
) -> Result<Tokens, SampleFault> {
    let mut bytes = Vec::from_slice(alloc, front)?;
    bytes.extend_from_slice(text)?;
    article_tokens(alloc, symbols, bytes.as_slice())
}

/// What stands before a text in the line of its article's `begin`.
const BESIDE: &[u8] = b"environ vocabularies A; begin ";

/// What stands before a text that begins in the line below its article's `begin`.
const BELOW: &[u8] = b"environ vocabularies A; begin\n";

/// The tokens of an article with this text behind its `begin`, the sixth of which is the first of the text. Its first byte
/// stands in column 31. `A` is the vocabulary with these symbols.
pub fn tokens_of(alloc: Global, symbols: &[u8], text: &[u8]) -> Result<Tokens, SampleFault> {
    tokens_behind(alloc, BESIDE, symbols, text)
}

/// The same, where the text stands on the second line, from column 1 on.
pub fn tokens_below(alloc: Global, symbols: &[u8], text: &[u8]) -> Result<Tokens, SampleFault> {
    tokens_behind(alloc, BELOW, symbols, text)
}

/// The tokens of the text, by the vocabulary that the tests of the parsers have in common.
pub fn tokens_behind_begin(alloc: Global, text: &[u8]) -> Result<Tokens, SampleFault> {
    tokens_of(alloc, SYMBOLS, text)
}
