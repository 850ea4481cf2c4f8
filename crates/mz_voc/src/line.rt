//! The lines of a vocabulary.
ghost use Rattle.std.specs.Prelude.{◌≡◌, ◌<◌, ◌≤◌, ◌∷◌, ◌-◌, length, Some, IfOk, All, position};
ghost use Rattle.std.specs.List.{list_all};
ghost use Rattle.mz_base.specs.Bytes.{is_digit};
ghost use Rattle.mz_voc.specs.Symbol.{priority_of, number_of};
ghost use Rattle.mz_voc.specs.Vocabulary.{functor_line, entry_line, line_of};
ghost use Rattle.mz_voc.specs.Lines.{is_line_end, is_space, lines_of, without_return};

use crate::symbol::{is_symbol, kind_of};
use crate::vocabulary::Entry;
use mz_base::symbol_kind::SymbolKind;
use mz_base::text::Text;
use mz_base::words::are_digits;
use std::alloc::{AllocError, Global};

/// The priority of a symbol where none is written.
const USUAL_PRIORITY: u8 = 64;

/// What a line of a vocabulary says.
#[derive(Debug, Drop)]
pub enum Line {
    /// Nothing.
    Blank,
    /// An entry.
    Good(Entry),
    /// Anything else.
    NoEntry,
    /// An entry but for its priority.
    NoPriority,
}

fn line_end(bytes: &[u8]) -> Option<usize>
    ensures { result ≡ position is_line_end bytes.now }
{
    bytes.iter().position(|byte| *byte == b'\n')
}

/// The first line without its end, and what stands behind that.
pub fn first_line(bytes: &[u8]) -> (&[u8], &[u8])
    requires { 0 < length bytes.now }
    ensures lines { lines_of bytes.now ≡ result.0.now ∷ lines_of result.1.now }
    ensures fewer { length result.1.now < length bytes.now }
{
    match line_end(bytes) {
        Some(at) => (&bytes[..at], &bytes[at + 1..]),
        None => (bytes, &[]),
    }
}

/// The line without the one byte 13 that may stand at its end.
pub fn without_return(line: &[u8]) -> &[u8]
    ensures { result.now ≡ without_return line.now }
{
    match line {
        [front @ .., b'\r'] => front,
        _ => line,
    }
}

fn digit(byte: u8) -> u32
    ensures value { result ≡ byte - 48 }
    ensures small { result < 256 }
{
    u32::from(byte.saturating_sub(b'0'))
}

fn number_of(digits: &[u8]) -> u32
    requires { length digits.now ≤ 3 }
    ensures { result ≡ number_of digits.now }
{
    match digits {
        [] => 0,
        [a] => digit(*a),
        [a, b] => digit(*a) * 10 + digit(*b),
        [a, b, c, ..] => (digit(*a) * 10 + digit(*b)) * 10 + digit(*c),
    }
}

/// The priority that the bytes write: one to three digits of at most 255.
pub fn priority_of(bytes: &[u8]) -> Option<u8>
    ensures { result ≡ priority_of bytes.now }
{
    if bytes.is_empty() || bytes.len() > 3 || !are_digits(bytes) {
        return None;
    }
    let number = number_of(bytes);
    if number <= 255 {
        Some(number as u8)
    } else {
        None
    }
}

fn space(bytes: &[u8]) -> Option<usize>
    ensures { result ≡ position is_space bytes.now }
{
    bytes.iter().position(|byte| *byte == b' ')
}

fn entry(alloc: Global, kind: SymbolKind, spelling: &[u8], priority: u8) -> Result<Line, AllocError>
    ensures { IfOk result (λ line. line ≡ Line.Good (record { kind = kind; spelling = spelling.now; priority = priority })) }
{
    let spelling = Text::from_slice(alloc, spelling)?;
    Ok(Line::Good(Entry {
        kind,
        spelling,
        priority,
    }))
}

/// What stands behind a functor's letter and has a space at `at`.
fn functor_line(alloc: Global, bytes: &[u8], at: usize) -> Result<Line, AllocError>
    requires { at < length bytes.now }
    ensures { IfOk result (λ line. line ≡ functor_line bytes.now (Some at)) }
{
    let spelling = &bytes[..at];
    if !is_symbol(spelling) {
        return Ok(Line::NoEntry);
    }
    match priority_of(&bytes[at + 1..]) {
        Some(priority) => entry(alloc, SymbolKind::Functor, spelling, priority),
        None => Ok(Line::NoPriority),
    }
}

/// What a line that isn't blank says, its letter standing for `kind`.
fn entry_line(alloc: Global, kind: SymbolKind, bytes: &[u8]) -> Result<Line, AllocError>
    ensures { IfOk result (λ line. line ≡ entry_line (Some kind) bytes.now) }
{
    if is_symbol(bytes) {
        return entry(alloc, kind, bytes, USUAL_PRIORITY);
    }
    match (kind, space(bytes)) {
        (SymbolKind::Functor, Some(at)) => functor_line(alloc, bytes, at),
        _ => Ok(Line::NoEntry),
    }
}

/// What the line says.
#[tactic(auto, unfolding(crate::specs::Vocabulary::line_of))]
pub fn read_line(alloc: Global, line: &[u8]) -> Result<Line, AllocError>
    ensures { IfOk result (λ l. l ≡ line_of line.now) }
{
    let Some((letter, bytes)) = line.split_first() else {
        return Ok(Line::Blank);
    };
    match kind_of(*letter) {
        Some(kind) => entry_line(alloc, kind, bytes),
        None => Ok(Line::NoEntry),
    }
}
