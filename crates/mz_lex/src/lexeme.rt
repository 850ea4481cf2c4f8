//! What a text may be cut into besides words.
use mz_base::text::Text;
use mz_base::token::TokenKind;

/// How long the token at the start of a text is, and what it is; length 0 where there is none.
#[derive(Clone, Copy, Debug, PartialEq, Eq)]
pub struct Longest {
    pub length: usize,
    pub kind: TokenKind,
    pub priority: u8,
}

/// A reserved word, a special symbol or a symbol of the environment.
#[derive(Debug, Drop)]
pub struct Lexeme {
    pub spelling: Text,
    pub kind: TokenKind,
    /// The priority of a functor symbol, and 0 for every other lexeme.
    pub priority: u8,
}
