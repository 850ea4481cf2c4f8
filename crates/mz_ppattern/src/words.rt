//! Reserved words that are told by their spelling, and `->`.
ghost use Rattle.std.specs.Prelude.{◌≡◌};
ghost use Rattle.std.specs.Str.{bytes_eq};
ghost use Rattle.mz_forms.specs.Reading.{Reads};
ghost use Rattle.mz_pterm.specs.Words.{same_place};
ghost use Rattle.mz_ppattern.specs.Words.{arrow_form, arrow_token, is_arrow, is_special, is_word, spells_word, word_form, word_token, TakesOne};
ghost use Rattle.mz_ppattern.specs.Optional.{next_has};

use mz_base::place::Place;
use mz_base::token::{Mark, MarkedToken, Token, TokenKind};
use mz_forms::refusal::Refusal;
use mz_pterm::reader::Reader;

fn spells(spelling: &[u8], word: &[u8]) -> bool
    ensures { result ≡ bytes_eq spelling.now word.now }
{
    spelling == word
}

/// Whether a token without a mark is this reserved word.
fn spells_word(token: &Token, word: &[u8]) -> bool
    ensures { result ≡ spells_word word.now token.now.kind token.now.spelling }
{
    match token.kind {
        TokenKind::Reserved => spells(token.spelling.as_slice(), word),
        TokenKind::Special => false,
        TokenKind::Symbol(_) => false,
        TokenKind::Identifier => false,
        TokenKind::Numeral => false,
    }
}

/// Whether a token without a mark is `->`.
fn is_special(token: &Token) -> bool
    ensures { result ≡ is_special token.now.kind token.now.spelling }
{
    match token.kind {
        TokenKind::Special => spells(token.spelling.as_slice(), b"->"),
        TokenKind::Reserved => false,
        TokenKind::Symbol(_) => false,
        TokenKind::Identifier => false,
        TokenKind::Numeral => false,
    }
}

/// Whether the token is this reserved word.
pub fn is_word(marked: &MarkedToken, word: &[u8]) -> bool
    ensures { result ≡ is_word word.now marked.now }
{
    if marked.token.priority != 0 {
        return false;
    }
    match marked.mark {
        Mark::NotComma => spells_word(&marked.token, word),
        Mark::List => false,
        Mark::Dividing => false,
    }
}

/// Whether the token is `->`.
pub fn is_arrow(marked: &MarkedToken) -> bool
    ensures { result ≡ is_arrow marked.now }
{
    if marked.token.priority != 0 {
        return false;
    }
    match marked.mark {
        Mark::NotComma => is_special(&marked.token),
        Mark::List => false,
        Mark::Dividing => false,
    }
}

/// Whether the reserved word comes next.
pub fn word_comes(reader: &Reader<'_>, word: &[u8]) -> bool
    ensures { result ≡ next_has (is_word word.now) reader.now.rest.now }
{
    let Some((next, _)) = reader.rest.split_first() else {
        return false;
    };
    is_word(next, word)
}

/// The place of the next token, which is taken if it is the reserved word.
pub fn takes_word(reader: &mut Reader<'_>, word: &[u8]) -> Option<Place>
    ensures { TakesOne (word_token word.now) reader.old.rest.now result reader.new.rest.now }
{
    let Some((next, rest)) = reader.rest.split_first() else {
        return None;
    };
    if is_word(next, word) {
        reader.rest = rest;
        Some(next.token.place)
    } else {
        None
    }
}

/// Takes the next token, which has to be the reserved word.
pub fn expect_word(reader: &mut Reader<'_>, word: &[u8]) -> Result<Place, Refusal>
    ensures { Reads (word_form word.now) 0 same_place reader.old.rest.now result reader.new.rest.now }
{
    match takes_word(reader, word) {
        Some(place) => Ok(place),
        None => Err(Refusal::Refused),
    }
}

/// Whether `->` comes next.
pub fn arrow_comes(reader: &Reader<'_>) -> bool
    ensures { result ≡ next_has is_arrow reader.now.rest.now }
{
    let Some((next, _)) = reader.rest.split_first() else {
        return false;
    };
    is_arrow(next)
}

/// The place of the next token, which is taken if it is `->`.
pub fn takes_arrow(reader: &mut Reader<'_>) -> Option<Place>
    ensures { TakesOne arrow_token reader.old.rest.now result reader.new.rest.now }
{
    let Some((next, rest)) = reader.rest.split_first() else {
        return None;
    };
    if is_arrow(next) {
        reader.rest = rest;
        Some(next.token.place)
    } else {
        None
    }
}

/// Takes the next token, which has to be `->`.
pub fn expect_arrow(reader: &mut Reader<'_>) -> Result<Place, Refusal>
    ensures { Reads arrow_form 0 same_place reader.old.rest.now result reader.new.rest.now }
{
    match takes_arrow(reader) {
        Some(place) => Ok(place),
        None => Err(Refusal::Refused),
    }
}
