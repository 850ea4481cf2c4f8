//! Texts cut into words and parentheses.
use crate::fault::SampleFault;
use std::alloc::Global;

/// What is read of a text, word by word.
pub trait Builder {
    /// An open parenthesis with the word behind it.
    fn open(&mut self, alloc: Global, word: &str) -> Result<(), SampleFault>;

    /// A closed parenthesis.
    fn close(&mut self, alloc: Global) -> Result<(), SampleFault>;

    /// A word that stands alone.
    fn word(&mut self, alloc: Global, word: &str) -> Result<(), SampleFault>;

    /// Whether no parenthesis is open.
    fn is_whole(&self) -> bool;
}

/// Reads a piece without blanks: a word, with the parentheses before and behind it. A comma at its end is passed over.
fn read_piece<B: Builder>(builder: &mut B, alloc: Global, piece: &str) -> Result<(), SampleFault> {
    let piece = piece.trim_end_matches(',');
    let behind = piece.trim_start_matches('(');
    let word = behind.trim_end_matches(')');
    if behind.len() < piece.len() {
        builder.open(alloc, word)?;
    } else {
        builder.word(alloc, word)?;
    }
    for _ in word.len()..behind.len() {
        builder.close(alloc)?;
    }
    Ok(())
}

/// Reads a text to its end, where no parenthesis is open.
pub fn read<B: Builder>(builder: &mut B, alloc: Global, text: &str) -> Result<(), SampleFault> {
    for piece in text.split_whitespace() {
        read_piece(builder, alloc, piece)?;
    }
    if builder.is_whole() {
        Ok(())
    } else {
        Err(SampleFault::Text)
    }
}
