//! Comparison of structures, set terms and choices.
ghost use Rattle.std.specs.Prelude.{◌≡◌, ◌↔◌, IsTrue};

use crate::lists::{Compared, are_equal};
use mz_core::set_term::{Choice, SetTerm};
use mz_core::structure::{Field, Structure};

impl Compared for Field {
    fn is_equal(&self, other: &Field) -> bool {
        self.selector.is(other.selector) && self.ty.equals(&other.ty)
    }
}

/// Whether the structures are equal.
pub fn structure_equal(a: &Structure, b: &Structure) -> bool
    ensures { IsTrue result ↔ (a.now ≡ b.now) }
{
    a.loci.equals(&b.loci)
        && a.sym.is(b.sym)
        && a.strict.is(b.strict)
        && a.aggregate.is(b.aggregate)
        && a.ancestors.equals(&b.ancestors)
        && are_equal(a.fields.items.as_slice(), b.fields.items.as_slice())
        && are_equal(a.notations.items.as_slice(), b.notations.items.as_slice())
}

/// Whether the set terms are equal.
pub fn set_term_equal(a: &SetTerm, b: &SetTerm) -> bool
    ensures { IsTrue result ↔ (a.now ≡ b.now) }
{
    a.loci.equals(&b.loci)
        && a.sym.is(b.sym)
        && a.ty.equals(&b.ty)
        && a.term.equals(&b.term)
        && a.formula.equals(&b.formula)
}

/// Whether the choices are equal.
pub fn choice_equal(a: &Choice, b: &Choice) -> bool
    ensures { IsTrue result ↔ (a.now ≡ b.now) }
{
    a.loci.equals(&b.loci) && a.sym.is(b.sym) && a.ty.equals(&b.ty)
}
