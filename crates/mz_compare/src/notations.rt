//! Comparison of patterns and notations.
ghost use Rattle.std.specs.Prelude.{◌≡◌, ◌↔◌, IsTrue};

use crate::lists::Compared;
use mz_core::notation::{Meaning, Notation};
use mz_core::pattern::Pattern;

/// Whether the patterns are equal.
pub fn pattern_equal(a: &Pattern, b: &Pattern) -> bool
    ensures { IsTrue result ↔ (a.now ≡ b.now) }
{
    a.symbol.as_slice() == b.symbol.as_slice()
        && a.closing.as_slice() == b.closing.as_slice()
        && a.kind.code() == b.kind.code()
        && a.loci.equals(&b.loci)
        && a.left.as_slice() == b.left.as_slice()
        && a.right.as_slice() == b.right.as_slice()
}

/// Whether the meanings are equal.
pub fn meaning_equal(a: &Meaning, b: &Meaning) -> bool
    ensures { IsTrue result ↔ (a.now ≡ b.now) }
{
    match (a, b) {
        (Meaning::OfTerm(x), Meaning::OfTerm(u)) => x.equals(u),
        (Meaning::OfLiteral(x), Meaning::OfLiteral(u)) => x.equals(u),
        (Meaning::OfType(x), Meaning::OfType(u)) => x.equals(u),
        _ => false,
    }
}

/// Whether the notations are equal.
pub fn notation_equal(a: &Notation, b: &Notation) -> bool
    ensures { IsTrue result ↔ (a.now ≡ b.now) }
{
    pattern_equal(&a.pattern, &b.pattern) && meaning_equal(&a.meaning, &b.meaning)
}

impl Compared for Notation {
    fn is_equal(&self, other: &Notation) -> bool {
        notation_equal(self, other)
    }
}
