//! What stands at the start of a text.
ghost use Rattle.std.specs.Prelude.{◌≡◌, ◌<◌, ◌≤◌, nat_lt, length, position, take, not, true, false};
ghost use Rattle.std.specs.List.{list_all, prefix_len};
ghost use Rattle.mz_base.specs.Bytes.{is_digit};
ghost use Rattle.mz_base.specs.Words.{is_word_byte};
ghost use Rattle.mz_lex.specs.Tokens.{is_separator, opens_comment, opens_pragma, opens_token, word_kind, is_line_end};
ghost use Rattle.mz_lex.specs.Piece.{IsPiece, IsLongestToken, comment_len, word_len};

use crate::lexeme::Longest;
use crate::symbol_table::SymbolTable;
use mz_base::token::TokenKind;
use mz_base::words::{are_digits, is_word_byte};

/// Which part of a text is cut, and so with which symbols.
#[derive(Clone, Copy, Debug, PartialEq, Eq)]
pub enum Part {
    /// The environment part alone, with the built-in symbols.
    HeadAlone,
    /// The environment part with the built-in symbols, and then what stands behind it.
    Head,
    /// What stands behind the environment part, with the symbols of its table.
    Behind,
}

/// What stands at the start of a text that isn't empty.
#[derive(Clone, Copy, Debug, PartialEq, Eq)]
pub enum Piece {
    /// A separator.
    Separator,
    /// A comment of so many bytes.
    Comment(usize),
    /// A comment that is refused.
    Pragma,
    /// A token.
    Token(Longest),
    /// Nothing that may stand there.
    BadByte,
}

fn is_separator(byte: u8) -> bool
    ensures { result ≡ is_separator byte }
{
    byte == b'\t' || byte == b'\n' || byte == b'\r' || byte == b' '
}

fn line_end(bytes: &[u8]) -> Option<usize>
    ensures { result ≡ position is_line_end bytes.now }
{
    bytes.iter().position(|byte| *byte == b'\n')
}

/// How many bytes stand before the end of the line.
fn comment_len(bytes: &[u8]) -> usize
    ensures { result ≡ comment_len bytes.now }
{
    match line_end(bytes) {
        Some(at) => at,
        None => bytes.len(),
    }
}

fn opens_comment(text: &[u8]) -> bool
    ensures { result ≡ opens_comment text.now }
{
    text.starts_with(b"::")
}

fn opens_pragma(text: &[u8]) -> bool
    ensures { result ≡ opens_pragma text.now }
{
    text.starts_with(b"::$C")
}

/// How many bytes at the front are in the word there.
fn word_len(bytes: &[u8]) -> usize
    ensures { result ≡ word_len bytes.now }
{
    let mut length = 0;
    while length < bytes.len() && is_word_byte(bytes[length]) {
        length += 1;
    }
    length
}

fn word_kind(word: &[u8]) -> TokenKind
    ensures { result ≡ word_kind word.now }
{
    if are_digits(word) {
        TokenKind::Numeral
    } else {
        TokenKind::Identifier
    }
}

/// Whether the word of so many bytes is longer than the lexeme.
fn is_shorter(lexeme: Longest, word: usize) -> bool
    ensures { result ≡ nat_lt lexeme.length word }
{
    lexeme.length < word
}

/// The longest token at the start of the text, of length 0 where there is none.
fn longest_token(table: &SymbolTable, text: &[u8]) -> Longest
    ensures { IsLongestToken table.now text.now result }
{
    let lexeme = table.longest(text);
    let length = word_len(text);
    if is_shorter(lexeme, length) {
        return Longest {
            length,
            kind: word_kind(&text[..length]),
            priority: 0,
        };
    }
    lexeme
}

/// What stands at the start of the text.
pub fn first_piece(table: &SymbolTable, text: &[u8]) -> Piece
    requires { 0 < length text.now }
    ensures { IsPiece table.now text.now result }
{
    if is_separator(text[0]) {
        return Piece::Separator;
    }
    if opens_pragma(text) {
        return Piece::Pragma;
    }
    if opens_comment(text) {
        return Piece::Comment(comment_len(text));
    }
    let token = longest_token(table, text);
    if token.length > 0 {
        Piece::Token(token)
    } else {
        Piece::BadByte
    }
}
