//! Names of articles and vocabularies.
ghost use Rattle.std.specs.Prelude.{◌≡◌, ◌↔◌, IsTrue, IsOk, IfOk, ◌≤◌, length, codes};
ghost use Rattle.std.specs.List.{list_all};
ghost use Rattle.std.specs.Ordering.{nat_cmp};
ghost use Rattle.std.specs.Cmp.Lexicographic.{slice_cmp};
ghost use Rattle.mz_base.specs.Bytes.{raised_byte, raised, lowered_byte, lowered};
ghost use Rattle.mz_base.specs.Name.{is_name, is_name_byte, is_raised_name, filled, number_of, text_of, is_built_in};

use crate::text::Text;
use std::alloc::{AllocError, Global};
use std::cmp::Ordering;

/// The bytes of `HIDDEN`, filled with zeros to eight, most significant first.
const HIDDEN: u64 = 0x4849_4444_454e_0000;

/// The bytes of `TARSKI_0`, most significant first.
const TARSKI_0: u64 = 0x5441_5253_4b49_5f30;

/// The bytes of `TARSKI_A`, most significant first.
const TARSKI_A: u64 = 0x5441_5253_4b49_5f41;

/// A name: 1 to 8 bytes, each an upper-case ASCII letter, a digit or `_`, the first of them a letter.
///
/// It is kept as its number. So the order of names is that of their bytes.
#[derive(Clone, Copy, Debug, PartialEq, Eq, PartialOrd, Ord, Hash)]
pub struct Name {
    /// The bytes, filled with zeros to eight, most significant first.
    pub number: u64,
    pub ghost named: { IsTrue (is_raised_name (text_of number)) },
    pub ghost spelled: { number_of (text_of number) ≡ number },
}

/// A word that is no name.
#[derive(Clone, Copy, Debug, PartialEq, Eq)]
pub struct BadName;

/// Whether the byte may stand in a name: an ASCII letter, a digit or `_`.
fn is_name_byte(byte: u8) -> bool
    ensures { result ≡ is_name_byte byte }
{
    byte.is_ascii_alphanumeric() || byte == b'_'
}

fn are_name_bytes(bytes: &[u8]) -> bool
    ensures { result ≡ list_all is_name_byte bytes.now }
{
    bytes.iter().all(|byte| is_name_byte(*byte))
}

fn is_name(word: &[u8]) -> bool
    ensures { result ≡ is_name word.now }
{
    match word {
        [] => false,
        [first, rest @ ..] => {
            first.is_ascii_alphabetic() && rest.len() <= 7 && are_name_bytes(rest)
        }
    }
}

fn raised_byte(byte: u8) -> u8
    ensures { result ≡ raised_byte byte }
{
    byte.to_ascii_uppercase()
}

fn lowered_byte(byte: u8) -> u8
    ensures { result ≡ lowered_byte byte }
{
    byte.to_ascii_lowercase()
}

/// The word with its lower-case letters raised, filled with zeros to eight bytes.
fn raised_and_filled(word: &[u8]) -> [u8; 8]
    requires { length word.now ≤ 8 }
    ensures { result ≡ filled (raised word.now) }
{
    let mut bytes = [0; 8];
    for (i, byte) in word.iter().enumerate() {
        bytes[i] = raised_byte(*byte);
    }
    bytes
}

impl Name {
    /// The name that the word spells, with its lower-case letters raised.
    ///
    /// # Errors
    /// `BadName` exactly where the word is no name.
    pub fn read(word: &[u8]) -> Result<Name, BadName>
        ensures ok { IsOk result ↔ IsTrue (is_name word.now) }
        ensures text { IfOk result (λ name. text_of name.number ≡ raised word.now) }
        ensures number { IfOk result (λ name. name.number ≡ number_of (raised word.now)) }
    {
        if !is_name(word) {
            return Err(BadName);
        }
        let number = u64::from_be_bytes(raised_and_filled(word));
        Ok(Name { number })
    }

    /// The number of the name: its bytes, filled with zeros to eight, most significant first.
    pub fn number(&self) -> u64
        ensures kept { result ≡ self.now.number }
        ensures value { result ≡ number_of (text_of self.now.number) }
    {
        self.number
    }

    /// The bytes of the name, without a lower-case letter.
    #[tactic(auto, unfolding(crate::specs::Name::text_of))]
    pub fn text(&self, alloc: Global) -> Result<Text, AllocError>
        ensures { IfOk result (λ text. text ≡ text_of self.now.number) }
    {
        let mut text = Text::new(alloc);
        for byte in self.number.to_be_bytes() {
            if byte != 0 {
                text.push(byte)?;
            }
        }
        Ok(text)
    }

    /// The bytes of the name with its letters lowered, as the names of files are written.
    #[tactic(auto, unfolding(crate::specs::Name::text_of))]
    pub fn lowered(&self, alloc: Global) -> Result<Text, AllocError>
        ensures { IfOk result (λ text. text ≡ lowered (text_of self.now.number)) }
    {
        let mut text = Text::new(alloc);
        for byte in self.number.to_be_bytes() {
            if byte != 0 {
                text.push(lowered_byte(byte))?;
            }
        }
        Ok(text)
    }

    /// The order of the names' bytes. The derived order of names is the same.
    pub fn compare(&self, other: &Name) -> Ordering
        ensures bytes { result ≡ slice_cmp nat_cmp (text_of self.now.number) (text_of other.now.number) }
        ensures numbers { result ≡ nat_cmp self.now.number other.now.number }
    {
        self.cmp(other)
    }

    /// Whether the name is one of HIDDEN, TARSKI_0 and TARSKI_A, which are built in.
    #[tactic(auto, using(crate::proofs::NameLemmas::built_in_numbers))]
    pub fn is_built_in(&self) -> bool
        ensures { result ≡ is_built_in self.now.number }
    {
        matches!(self.number, HIDDEN | TARSKI_0 | TARSKI_A)
    }

    /// The name HIDDEN.
    #[tactic(auto, unfolding(crate::specs::Name::text_of, crate::specs::Name::number_of))]
    pub fn hidden() -> Name
        ensures { text_of result.number ≡ codes "HIDDEN" }
    {
        Name { number: HIDDEN }
    }

    /// The name TARSKI_0.
    #[tactic(auto, unfolding(crate::specs::Name::text_of, crate::specs::Name::number_of))]
    pub fn tarski_0() -> Name
        ensures { text_of result.number ≡ codes "TARSKI_0" }
    {
        Name { number: TARSKI_0 }
    }

    /// The name TARSKI_A.
    #[tactic(auto, unfolding(crate::specs::Name::text_of, crate::specs::Name::number_of))]
    pub fn tarski_a() -> Name
        ensures { text_of result.number ≡ codes "TARSKI_A" }
    {
        Name { number: TARSKI_A }
    }
}

#[cfg(test)]
mod tests {
    use super::*;

    #[test]
    fn reads_names(rt: HostRuntime) {
        let rows: [(&[u8], &[u8], &[u8], u64, bool); 6] = [
            (b"A", b"A", b"a", 0x4100_0000_0000_0000, false),
            (
                b"tarski_0",
                b"TARSKI_0",
                b"tarski_0",
                0x5441_5253_4b49_5f30,
                true,
            ),
            (b"Hidden", b"HIDDEN", b"hidden", 0x4849_4444_454e_0000, true),
            (
                b"TARSKI_A",
                b"TARSKI_A",
                b"tarski_a",
                0x5441_5253_4b49_5f41,
                true,
            ),
            (
                b"HIDDEN2",
                b"HIDDEN2",
                b"hidden2",
                0x4849_4444_454e_3200,
                false,
            ),
            (b"z9_", b"Z9_", b"z9_", 0x5a39_5f00_0000_0000, false),
        ];
        for (word, text, lowered, number, built_in) in rows {
            let name = Name::read(word).expect(&rt, "a name");
            let spelled = name.text(rt.alloc()).expect(&rt, "memory");
            let file = name.lowered(rt.alloc()).expect(&rt, "memory");
            assert!(rt; name.number() == number);
            assert!(rt; spelled.as_slice() == text);
            assert!(rt; file.as_slice() == lowered);
            assert!(rt; name.is_built_in() == built_in);
        }
        let words: [&[u8]; 6] = [b"1A", b"ABCDEFGHI", b"", b"_A", b"A-B", b"\xc3\xa9"];
        for word in words {
            assert!(rt; Name::read(word).is_err());
        }
    }
}
