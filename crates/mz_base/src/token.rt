//! Tokens, their kinds and their marks.
use crate::place::Place;
use crate::symbol_kind::SymbolKind;
use crate::text::Text;
use std::marker::Model;

/// What a token is (`docs/LANGUAGE.md`).
#[derive(Clone, Copy, Debug, PartialEq, Eq)]
pub enum TokenKind {
    /// A reserved word, `set` among them.
    Reserved,
    /// A special symbol, as `;` or `$1`.
    Special,
    /// A symbol of the environment.
    Symbol(SymbolKind),
    /// A word that is neither reserved nor a numeral.
    Identifier,
    /// A word of digits alone.
    Numeral,
}

/// A token of a text.
#[derive(Debug, Drop)]
pub struct Token {
    pub kind: TokenKind,
    /// The place of its first byte.
    pub place: Place,
    pub spelling: Text,
    /// The priority of a functor symbol, and 0 for every other token.
    pub priority: u8,
}

/// The tokens of a text, in order.
#[derive(Debug, Drop)]
pub struct Tokens {
    pub items: Vec<Token>,
    /// The place just after the text's last byte.
    pub end: Place,
}

impl Model for Tokens {
    ghost use Rattle.mz_base.specs.TokenList.{TokenList};

    ghost Value = { TokenList };

    ghost view = { λ a. record { items = a.items.items; end = a.end } };
}

/// The mark of a token: whether a comma goes on a list of terms, or divides what holds such lists (`docs/LANGUAGE.md`).
#[derive(Clone, Copy, Debug, PartialEq, Eq)]
pub enum Mark {
    /// No comma.
    NotComma,
    /// A comma that goes on a list of terms.
    List,
    /// A comma that divides what holds lists of terms.
    Dividing,
}

/// A token with its mark.
#[derive(Debug, Drop)]
pub struct MarkedToken {
    pub token: Token,
    pub mark: Mark,
}
