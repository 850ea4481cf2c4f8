//! Compact statements as they are read.
use mz_core::statement::Statement;
use mz_core::statements::Statements;
use mz_formulas::sentence::Sentence;

/// What a compact statement states, and what further sides have to justify, one equation each.
#[derive(Drop)]
pub struct Said {
    pub states: Statement,
    pub further: Statements,
}

/// A compact statement as read: the sentence that is justified first, and what is said by it.
#[derive(Drop)]
pub struct Compact {
    pub sentence: Sentence,
    pub said: Said,
}
