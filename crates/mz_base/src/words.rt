//! Reserved words, special symbols, built-in symbols and words.
ghost use Rattle.std.specs.Prelude.{◌≡◌};
ghost use Rattle.std.specs.List.{list_all, list_any};
ghost use Rattle.std.specs.Str.{bytes_eq};
ghost use Rattle.mz_base.specs.Bytes.{is_digit};
ghost use Rattle.mz_base.specs.Words.{is_word_byte, is_word, is_numeral, is_reserved, is_special, is_built_in_symbol, reserved_words, special_symbols, built_in_symbols};

use crate::symbol_kind::SymbolKind;

/// The reserved words, in the order of their bytes.
pub const RESERVED_WORDS: [&[u8]; 107] = [
    b"and",
    b"antonym",
    b"are",
    b"as",
    b"assume",
    b"asymmetry",
    b"attr",
    b"be",
    b"begin",
    b"being",
    b"by",
    b"canceled",
    b"case",
    b"cases",
    b"cluster",
    b"coherence",
    b"commutativity",
    b"compatibility",
    b"connectedness",
    b"consider",
    b"consistency",
    b"constructors",
    b"contradiction",
    b"correctness",
    b"def",
    b"deffunc",
    b"definition",
    b"definitions",
    b"defpred",
    b"do",
    b"does",
    b"end",
    b"environ",
    b"equalities",
    b"equals",
    b"ex",
    b"exactly",
    b"existence",
    b"expansions",
    b"for",
    b"from",
    b"func",
    b"given",
    b"hence",
    b"hereby",
    b"holds",
    b"idempotence",
    b"identify",
    b"if",
    b"iff",
    b"implies",
    b"involutiveness",
    b"irreflexivity",
    b"is",
    b"it",
    b"let",
    b"means",
    b"mode",
    b"non",
    b"not",
    b"notation",
    b"notations",
    b"now",
    b"of",
    b"or",
    b"otherwise",
    b"over",
    b"per",
    b"pred",
    b"projectivity",
    b"proof",
    b"provided",
    b"qua",
    b"reconsider",
    b"redefine",
    b"reduce",
    b"reducibility",
    b"reflexivity",
    b"registration",
    b"registrations",
    b"requirements",
    b"reserve",
    b"sch",
    b"scheme",
    b"schemes",
    b"set",
    b"sethood",
    b"st",
    b"struct",
    b"such",
    b"suppose",
    b"symmetry",
    b"synonym",
    b"take",
    b"that",
    b"the",
    b"then",
    b"theorem",
    b"theorems",
    b"thesis",
    b"thus",
    b"to",
    b"transitivity",
    b"uniqueness",
    b"vocabularies",
    b"where",
    b"with",
];

/// The special symbols.
pub const SPECIAL_SYMBOLS: [&[u8]; 24] = [
    b",", b";", b":", b"(", b")", b"[", b"]", b"{", b"}", b"&", b"->", b".=", b"(#", b"#)", b"$1",
    b"$2", b"$3", b"$4", b"$5", b"$6", b"$7", b"$8", b"$9", b"$10",
];

/// The built-in symbols and their kinds, but for the reserved word `set`, which serves as a mode too.
pub const BUILT_IN_SYMBOLS: [(&[u8], SymbolKind); 5] = [
    (b"object", SymbolKind::Mode),
    (b"=", SymbolKind::Predicate),
    (b"<>", SymbolKind::Predicate),
    (b"in", SymbolKind::Predicate),
    (b"strict", SymbolKind::Attribute),
];

/// Whether the byte may stand in a word: an ASCII letter, a digit, `_` or `'`.
pub fn is_word_byte(byte: u8) -> bool
    ensures { result ≡ is_word_byte byte }
{
    byte.is_ascii_alphanumeric() || byte == b'_' || byte == b'\''
}

/// Whether each byte may stand in a word.
pub fn are_word_bytes(bytes: &[u8]) -> bool
    ensures { result ≡ list_all is_word_byte bytes.now }
{
    bytes.iter().all(|byte| is_word_byte(*byte))
}

/// Whether each byte is a digit.
pub fn are_digits(bytes: &[u8]) -> bool
    ensures { result ≡ list_all is_digit bytes.now }
{
    bytes.iter().all(|byte| byte.is_ascii_digit())
}

/// Whether the bytes are a word: one or more of ASCII letters, digits, `_` and `'`.
pub fn is_word(bytes: &[u8]) -> bool
    ensures { result ≡ is_word bytes.now }
{
    !bytes.is_empty() && are_word_bytes(bytes)
}

/// Whether the bytes are a numeral: one or more digits.
pub fn is_numeral(bytes: &[u8]) -> bool
    ensures { result ≡ is_numeral bytes.now }
{
    !bytes.is_empty() && are_digits(bytes)
}

fn is_among(words: &[&[u8]], word: &[u8]) -> bool
    ensures { result ≡ list_any (λ w. bytes_eq w.now word.now) words.now }
{
    words.iter().any(|w| *w == word)
}

/// Whether the word is reserved.
#[tactic(auto, unfolding(crate::specs::Words::reserved_words))]
pub fn is_reserved(word: &[u8]) -> bool
    ensures { result ≡ is_reserved word.now }
{
    is_among(&RESERVED_WORDS, word)
}

/// Whether the bytes are a special symbol.
#[tactic(auto, unfolding(crate::specs::Words::special_symbols))]
pub fn is_special(bytes: &[u8]) -> bool
    ensures { result ≡ is_special bytes.now }
{
    is_among(&SPECIAL_SYMBOLS, bytes)
}

fn is_among_symbols(symbols: &[(&[u8], SymbolKind)], bytes: &[u8]) -> bool
    ensures { result ≡ list_any (λ s. bytes_eq s.0.now bytes.now) symbols.now }
{
    symbols.iter().any(|symbol| symbol.0 == bytes)
}

/// Whether the bytes are a built-in symbol.
#[tactic(auto, unfolding(crate::specs::Words::built_in_symbols))]
pub fn is_built_in_symbol(bytes: &[u8]) -> bool
    ensures { result ≡ is_built_in_symbol bytes.now }
{
    is_among_symbols(&BUILT_IN_SYMBOLS, bytes)
}
