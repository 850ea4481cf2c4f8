//! What may be a symbol of a vocabulary.
ghost use Rattle.std.specs.Prelude.{◌≡◌, length};
ghost use Rattle.std.specs.List.{list_all};
ghost use Rattle.mz_voc.specs.Symbol.{is_symbol, is_symbol_form, is_taken, is_symbol_byte, has_double_colon, kind_of, priority_of, is_priority, number_of};

use mz_base::symbol_kind::SymbolKind;
use mz_base::words::{are_digits, is_built_in_symbol, is_numeral, is_reserved, is_special};

/// The kind that the letter stands for.
#[tactic(auto, unfolding(crate::specs::Symbol::kind_of))]
pub fn kind_of(letter: u8) -> Option<SymbolKind>
    ensures { result ≡ kind_of letter }
{
    match letter {
        b'G' => Some(SymbolKind::Structure),
        b'K' => Some(SymbolKind::LeftBracket),
        b'L' => Some(SymbolKind::RightBracket),
        b'M' => Some(SymbolKind::Mode),
        b'O' => Some(SymbolKind::Functor),
        b'R' => Some(SymbolKind::Predicate),
        b'U' => Some(SymbolKind::Selector),
        b'V' => Some(SymbolKind::Attribute),
        _ => None,
    }
}

fn is_symbol_byte(byte: u8) -> bool
    ensures { result ≡ is_symbol_byte byte }
{
    byte >= 33 && byte <= 126
}

fn are_symbol_bytes(bytes: &[u8]) -> bool
    ensures { result ≡ list_all is_symbol_byte bytes.now }
{
    bytes.iter().all(|byte| is_symbol_byte(*byte))
}

fn has_double_colon(bytes: &[u8]) -> bool
    ensures { result ≡ has_double_colon bytes.now }
{
    let mut rest = bytes;
    while let Some((first, others)) = rest.split_first() {
        if *first == b':' && others.first() == Some(&b':') {
            return true;
        }
        rest = others;
    }
    false
}

/// Whether the bytes have the form of a symbol: 1 to 32 printable bytes, without `::`.
fn is_symbol_form(bytes: &[u8]) -> bool
    ensures { result ≡ is_symbol_form bytes.now }
{
    bytes.len() >= 1 && bytes.len() <= 32 && are_symbol_bytes(bytes) && !has_double_colon(bytes)
}

/// Whether the bytes are a reserved word, a special symbol, a built-in symbol or a numeral.
fn is_taken(bytes: &[u8]) -> bool
    ensures { result ≡ is_taken bytes.now }
{
    is_reserved(bytes) || is_special(bytes) || is_built_in_symbol(bytes) || is_numeral(bytes)
}

/// Whether the bytes may be a symbol of a vocabulary.
#[tactic(auto, unfolding(crate::specs::Symbol::is_symbol))]
pub fn is_symbol(bytes: &[u8]) -> bool
    ensures { result ≡ is_symbol bytes.now }
{
    is_symbol_form(bytes) && !is_taken(bytes)
}
