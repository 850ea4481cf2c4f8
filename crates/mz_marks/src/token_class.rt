//! What tokens are to the marks of commas.
ghost use Rattle.std.specs.Prelude.{◌≡◌, IfOk, map};
ghost use Rattle.std.specs.Str.{bytes_eq};
ghost use Rattle.mz_marks.specs.TokenClass.{symbol_class, reserved_class, special_class, is_argument, class_of};

use mz_base::symbol_kind::SymbolKind;
use mz_base::token::{Token, TokenKind};
use std::alloc::{AllocError, Global};

/// What a token is to the marks of commas.
#[derive(Clone, Copy, Debug, PartialEq, Eq)]
pub enum TokenClass {
    Identifier,
    Comma,
    /// `(`
    Open,
    /// `)`
    Close,
    /// `[`
    Bracket,
    /// `be` or `being`
    Being,
    /// `->`
    Arrow,
    For,
    Reserve,
    Semicolon,
    /// A symbol of a structure.
    Structure,
    /// `(#`
    Aggregate,
    /// Another token that begins a term: a functor symbol, a left bracket, `it`, `$1` to `$10`, `{` or `the`.
    Term,
    Other,
}

fn is(spelling: &[u8], word: &[u8]) -> bool
    ensures { result ≡ bytes_eq spelling.now word.now }
{
    spelling == word
}

fn symbol_class(kind: SymbolKind) -> TokenClass
    ensures { result ≡ symbol_class kind }
{
    match kind {
        SymbolKind::Structure => TokenClass::Structure,
        SymbolKind::Functor | SymbolKind::LeftBracket => TokenClass::Term,
        _ => TokenClass::Other,
    }
}

fn reserved_class(spelling: &[u8]) -> TokenClass
    ensures { result ≡ reserved_class spelling.now }
{
    if is(spelling, b"be") || is(spelling, b"being") {
        TokenClass::Being
    } else if is(spelling, b"for") {
        TokenClass::For
    } else if is(spelling, b"reserve") {
        TokenClass::Reserve
    } else if is(spelling, b"it") || is(spelling, b"the") {
        TokenClass::Term
    } else {
        TokenClass::Other
    }
}

fn is_argument(spelling: &[u8]) -> bool
    ensures { result ≡ is_argument spelling.now }
{
    is(spelling, b"$1")
        || is(spelling, b"$2")
        || is(spelling, b"$3")
        || is(spelling, b"$4")
        || is(spelling, b"$5")
        || is(spelling, b"$6")
        || is(spelling, b"$7")
        || is(spelling, b"$8")
        || is(spelling, b"$9")
        || is(spelling, b"$10")
}

fn special_class(spelling: &[u8]) -> TokenClass
    ensures { result ≡ special_class spelling.now }
{
    if is(spelling, b",") {
        TokenClass::Comma
    } else if is(spelling, b"(") {
        TokenClass::Open
    } else if is(spelling, b")") {
        TokenClass::Close
    } else if is(spelling, b"[") {
        TokenClass::Bracket
    } else if is(spelling, b"->") {
        TokenClass::Arrow
    } else if is(spelling, b";") {
        TokenClass::Semicolon
    } else if is(spelling, b"(#") {
        TokenClass::Aggregate
    } else if is(spelling, b"{") || is_argument(spelling) {
        TokenClass::Term
    } else {
        TokenClass::Other
    }
}

impl TokenClass {
    /// What the token is to the marks of commas.
    pub fn of(token: &Token) -> TokenClass
        ensures { result ≡ class_of token.now }
    {
        match token.kind {
            TokenKind::Reserved => reserved_class(token.spelling.as_slice()),
            TokenKind::Special => special_class(token.spelling.as_slice()),
            TokenKind::Symbol(kind) => symbol_class(kind),
            TokenKind::Identifier => TokenClass::Identifier,
            TokenKind::Numeral => TokenClass::Other,
        }
    }
}

/// What each token is to the marks of commas.
pub fn classes(alloc: Global, tokens: &[Token]) -> Result<Vec<TokenClass>, AllocError>
    ensures { IfOk result (λ v. v.items ≡ map class_of tokens.now) }
{
    let mut classes = Vec::new(alloc);
    for token in tokens {
        classes.push(TokenClass::of(token))?;
    }
    Ok(classes)
}
