//! Symbols and numbers, read from their texts.
use mz_logic::kind::Kind;
use mz_logic::sym::Sym;

/// The kind with a letter.
fn kind(letter: u8) -> Option<Kind> {
    match letter {
        b'M' => Some(Kind::Mode),
        b'G' => Some(Kind::Structure),
        b'V' => Some(Kind::Attribute),
        b'O' => Some(Kind::Functor),
        b'U' => Some(Kind::Selector),
        b'A' => Some(Kind::Aggregate),
        b'R' => Some(Kind::Predicate),
        b'F' => Some(Kind::LetterFunctor),
        b'P' => Some(Kind::LetterPredicate),
        _ => None,
    }
}

/// Whether symbols of the kind make terms.
pub fn makes_terms(kind: Kind) -> bool {
    matches!(
        kind,
        Kind::Functor | Kind::Selector | Kind::Aggregate | Kind::LetterFunctor
    )
}

/// The number that the digits spell.
pub fn number(digits: &[u8]) -> Option<u32> {
    if digits.is_empty() {
        return None;
    }
    let mut number: u32 = 0;
    for digit in digits {
        if !digit.is_ascii_digit() {
            return None;
        }
        number = number
            .checked_mul(10)?
            .checked_add(u32::from(*digit - b'0'))?;
    }
    Some(number)
}

fn is_name_byte(byte: u8) -> bool {
    byte.is_ascii_alphanumeric() || byte == b'_'
}

/// The number of an article's name: its bytes, letters and digits, filled with zeros to eight.
fn article(name: &[u8]) -> Option<u64> {
    if name.is_empty() || name.len() > 8 || !name.iter().all(|byte| is_name_byte(*byte)) {
        return None;
    }
    let mut bytes = [0; 8];
    for (at, byte) in bytes.iter_mut().zip(name) {
        *at = *byte;
    }
    Some(u64::from_be_bytes(bytes))
}

/// The symbol `NAME.LN`.
pub fn symbol(word: &str) -> Option<Sym> {
    let (name, rest) = word.split_once('.')?;
    let (letter, digits) = rest.as_bytes().split_first()?;
    Some(Sym {
        article: article(name.as_bytes())?,
        kind: kind(*letter)?,
        number: number(digits)?,
    })
}
