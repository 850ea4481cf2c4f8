//! Comparison of definientia.
ghost use Rattle.std.specs.Prelude.{◌≡◌, ◌↔◌, IsTrue};

use crate::lists::{Compared, are_equal};
use mz_core::formula_definiens::{FormulaCase, FormulaDefiniens};
use mz_core::term_definiens::{TermCase, TermDefiniens};

impl Compared for FormulaCase {
    fn is_equal(&self, other: &FormulaCase) -> bool {
        self.condition.equals(&other.condition) && self.definiens.equals(&other.definiens)
    }
}

/// Whether the definientia are equal.
pub fn formula_definiens_equal(a: &FormulaDefiniens, b: &FormulaDefiniens) -> bool
    ensures { IsTrue result ↔ (a.now ≡ b.now) }
{
    match (a, b) {
        (FormulaDefiniens::Plain(x), FormulaDefiniens::Plain(u)) => x.equals(u),
        (FormulaDefiniens::Cases(x), FormulaDefiniens::Cases(u)) => are_equal(
            x.items.as_slice(),
            u.items.as_slice(),
        ),
        (FormulaDefiniens::CasesOtherwise(x, y), FormulaDefiniens::CasesOtherwise(u, v)) =>
            are_equal(x.items.as_slice(), u.items.as_slice()) && y.equals(v),
        _ => false,
    }
}

impl Compared for TermCase {
    fn is_equal(&self, other: &TermCase) -> bool {
        self.condition.equals(&other.condition) && self.definiens.equals(&other.definiens)
    }
}

/// Whether the definientia are equal.
pub fn term_definiens_equal(a: &TermDefiniens, b: &TermDefiniens) -> bool
    ensures { IsTrue result ↔ (a.now ≡ b.now) }
{
    match (a, b) {
        (TermDefiniens::Plain(x), TermDefiniens::Plain(u)) => x.equals(u),
        (TermDefiniens::Cases(x), TermDefiniens::Cases(u)) => are_equal(
            x.items.as_slice(),
            u.items.as_slice(),
        ),
        (TermDefiniens::CasesOtherwise(x, y), TermDefiniens::CasesOtherwise(u, v)) => are_equal(
            x.items.as_slice(),
            u.items.as_slice(),
        ) && y.equals(v),
        _ => false,
    }
}
