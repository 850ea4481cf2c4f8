//! What a token is for an environment part.
ghost use Rattle.std.specs.Prelude.{◌≡◌};
ghost use Rattle.mz_lex.specs.HeadToken.{of_word, of_special, of_identifier, head_token_of};

use mz_base::head::DirectiveKind;
use mz_base::name::Name;
use mz_base::token::{Token, TokenKind};

/// What a token is for an environment part.
#[derive(Clone, Copy, Debug, PartialEq, Eq)]
pub enum HeadToken {
    /// `environ`
    Environ,
    /// `begin`
    Begin,
    /// A directive's word.
    Directive(DirectiveKind),
    /// A directive's word that isn't allowed yet: `equalities` or `expansions`.
    Later,
    /// An identifier that is a name.
    Name,
    /// `,`
    Comma,
    /// `;`
    Semicolon,
    /// Any other token.
    Other,
}

fn of_word(word: &[u8]) -> HeadToken
    ensures { result ≡ of_word word.now }
{
    if word == b"environ".as_slice() {
        HeadToken::Environ
    } else if word == b"begin".as_slice() {
        HeadToken::Begin
    } else if word == b"vocabularies".as_slice() {
        HeadToken::Directive(DirectiveKind::Vocabularies)
    } else if word == b"notations".as_slice() {
        HeadToken::Directive(DirectiveKind::Notations)
    } else if word == b"constructors".as_slice() {
        HeadToken::Directive(DirectiveKind::Constructors)
    } else if word == b"registrations".as_slice() {
        HeadToken::Directive(DirectiveKind::Registrations)
    } else if word == b"definitions".as_slice() {
        HeadToken::Directive(DirectiveKind::Definitions)
    } else if word == b"theorems".as_slice() {
        HeadToken::Directive(DirectiveKind::Theorems)
    } else if word == b"schemes".as_slice() {
        HeadToken::Directive(DirectiveKind::Schemes)
    } else if word == b"requirements".as_slice() {
        HeadToken::Directive(DirectiveKind::Requirements)
    } else if word == b"equalities".as_slice() || word == b"expansions".as_slice() {
        HeadToken::Later
    } else {
        HeadToken::Other
    }
}

fn of_special(symbol: &[u8]) -> HeadToken
    ensures { result ≡ of_special symbol.now }
{
    if symbol == b",".as_slice() {
        HeadToken::Comma
    } else if symbol == b";".as_slice() {
        HeadToken::Semicolon
    } else {
        HeadToken::Other
    }
}

fn of_identifier(word: &[u8]) -> HeadToken
    ensures { result ≡ of_identifier word.now }
{
    match Name::read(word) {
        Ok(_) => HeadToken::Name,
        Err(_) => HeadToken::Other,
    }
}

/// What the token is for an environment part.
#[tactic(auto, unfolding(crate::specs::HeadToken::head_token_of))]
pub fn head_token_of(token: &Token) -> HeadToken
    ensures { result ≡ head_token_of token.now }
{
    let spelling = token.spelling.as_slice();
    match token.kind {
        TokenKind::Reserved => of_word(spelling),
        TokenKind::Special => of_special(spelling),
        TokenKind::Identifier => of_identifier(spelling),
        TokenKind::Symbol(_) => HeadToken::Other,
        TokenKind::Numeral => HeadToken::Other,
    }
}
