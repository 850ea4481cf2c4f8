//! Comparison of schemes.
ghost use Rattle.std.specs.Prelude.{◌≡◌, ◌↔◌, IsTrue};

use crate::lists::{Compared, are_equal};
use mz_core::scheme::{Scheme, SchemeLetter};

impl Compared for SchemeLetter {
    fn is_equal(&self, other: &SchemeLetter) -> bool {
        match (self, other) {
            (SchemeLetter::OfFunctor(x, y, z), SchemeLetter::OfFunctor(u, v, w)) => x.is(*u)
                && y.equals(v)
                && z.equals(w),
            (SchemeLetter::OfPredicate(x, y), SchemeLetter::OfPredicate(u, v)) => x.is(*u)
                && y.equals(v),
            _ => false,
        }
    }
}

/// Whether the schemes are equal.
pub fn scheme_equal(a: &Scheme, b: &Scheme) -> bool
    ensures { IsTrue result ↔ (a.now ≡ b.now) }
{
    are_equal(a.letters.items.as_slice(), b.letters.items.as_slice())
        && a.premises.equals(&b.premises)
        && a.conclusion.equals(&b.conclusion)
}
