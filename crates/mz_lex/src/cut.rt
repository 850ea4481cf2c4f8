//! The cut of a text.
ghost use Rattle.std.specs.Prelude.{◌≡◌, ◌==◌, ◌+◌, ◌^◌, ◌<◌, ◌≤◌, length, IfOk, IfErr};
ghost use Rattle.mz_base.specs.Place.{start, end_from};
ghost use Rattle.mz_lex.specs.Cut.{Whole, IsCut, IsStopped, is_begin, most_tokens};
ghost use Rattle.mz_lex.specs.Part.{symbols_of, mode_of, ends_at, part_behind};
ghost use Rattle.mz_lex.specs.Piece.{IsPiece};

use crate::lex_fault::LexFault;
use crate::lexeme::Longest;
use crate::piece::{Part, Piece, first_piece};
use crate::symbol_table::SymbolTable;
use mz_base::place::Place;
use mz_base::text::Text;
use mz_base::token::{Token, Tokens};
use std::alloc::{AllocError, Global};

/// The most tokens that a text has.
pub const MOST_TOKENS: usize = 200_000;

/// Where a text begins.
fn first_place() -> Place
    ensures { result ≡ start }
{
    Place::start()
}

/// Where the text goes on behind a piece that stands at the place.
fn place_behind(place: Place, piece: &[u8]) -> Place
    requires line { place.line + length piece.now < 2 ^ 64 }
    requires column { place.column + length piece.now < 2 ^ 64 }
    ensures value { result ≡ end_from place piece.now }
    ensures line { result.line ≤ place.line + length piece.now }
    ensures column { result.column ≤ place.column + length piece.now }
{
    place.after_all(piece)
}

/// Whether no token may follow these.
fn is_full(tokens: &Vec<Token>) -> bool
    ensures { result ≡ (length tokens.now.items == most_tokens) }
{
    tokens.len() == MOST_TOKENS
}

fn is_begin(spelling: &[u8]) -> bool
    ensures { result ≡ is_begin spelling.now }
{
    spelling == b"begin".as_slice()
}

/// Whether the cut ends with this spelling.
fn ends_at(part: Part, spelling: &[u8]) -> bool
    ensures { result ≡ ends_at part spelling.now }
{
    match part {
        Part::HeadAlone => is_begin(spelling),
        Part::Head => false,
        Part::Behind => false,
    }
}

/// The part behind this spelling.
fn part_behind(part: Part, spelling: &[u8]) -> Part
    ensures { result ≡ part_behind part spelling.now }
{
    match part {
        Part::HeadAlone => Part::HeadAlone,
        Part::Head => {
            if is_begin(spelling) {
                Part::Behind
            } else {
                Part::Head
            }
        }
        Part::Behind => Part::Behind,
    }
}

/// What stands at the start of the text, in this part.
fn piece_in(part: Part, built_in: &SymbolTable, later: &SymbolTable, text: &[u8]) -> Piece
    requires { 0 < length text.now }
    ensures { IsPiece (symbols_of part built_in.now later.now) text.now result }
{
    match part {
        Part::HeadAlone => first_piece(built_in, text),
        Part::Head => first_piece(built_in, text),
        Part::Behind => first_piece(later, text),
    }
}

fn token(
    alloc: Global,
    longest: Longest,
    place: Place,
    spelling: &[u8],
) -> Result<Token, AllocError>
    ensures { IfOk result (λ t. t ≡ record { kind = longest.kind; place = place; spelling = spelling.now; priority = longest.priority }) }
{
    let spelling = Text::from_slice(alloc, spelling)?;
    Ok(Token {
        kind: longest.kind,
        place,
        spelling,
        priority: longest.priority,
    })
}

/// The tokens of a text from this part on: up to and including the first `begin` with the built-in symbols, and behind
/// it, where the cut doesn't end there, with the later ones.
///
/// # Errors
/// The first in the text of `BadByte`, `Pragma` and `TooManyTokens`. `Memory` where there wasn't enough memory.
pub fn cut(
    alloc: Global,
    built_in: &SymbolTable,
    later: &SymbolTable,
    bytes: &[u8],
    part: Part,
) -> Result<Tokens, LexFault>
    ensures cut { IfOk result (λ ts. IsCut (symbols_of part built_in.now later.now) (mode_of part later.now) bytes.now ts.items (Whole ts.end)) }
    ensures stopped { IfErr result (IsStopped (symbols_of part built_in.now later.now) (mode_of part later.now) bytes.now) }
{
    let mut items = Vec::new(alloc);
    let mut place = first_place();
    let mut rest = bytes;
    let mut here = part;
    while !rest.is_empty() {
        match piece_in(here, built_in, later, rest) {
            Piece::Separator => {
                let (separator, others) = rest.split_at(1);
                place = place_behind(place, separator);
                rest = others;
            }
            Piece::Comment(length) => {
                let (comment, others) = rest.split_at(length);
                place = place_behind(place, comment);
                rest = others;
            }
            Piece::Token(longest) => {
                if is_full(&items) {
                    return Err(LexFault::TooManyTokens { place });
                }
                let (spelling, others) = rest.split_at(longest.length);
                items.push(token(alloc, longest, place, spelling)?)?;
                place = place_behind(place, spelling);
                rest = others;
                if ends_at(here, spelling) {
                    return Ok(Tokens { items, end: place });
                }
                here = part_behind(here, spelling);
            }
            Piece::Pragma => return Err(LexFault::Pragma { place }),
            Piece::BadByte => return Err(LexFault::BadByte { place }),
        }
    }
    Ok(Tokens { items, end: place })
}
