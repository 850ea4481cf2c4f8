//! Comparison of registrations.
ghost use Rattle.std.specs.Prelude.{◌≡◌, ◌↔◌, IsTrue};

use crate::definitions::type_if_any_equal;
use mz_core::registration::{
    ConditionalRegistration, EquationRegistration, ExistentialRegistration, FunctorialRegistration,
};

/// Whether the registrations are equal.
pub fn existential_equal(a: &ExistentialRegistration, b: &ExistentialRegistration) -> bool
    ensures { IsTrue result ↔ (a.now ≡ b.now) }
{
    a.loci.equals(&b.loci) && a.adjectives.equals(&b.adjectives) && a.ty.equals(&b.ty)
}

/// Whether the registrations are equal.
pub fn conditional_equal(a: &ConditionalRegistration, b: &ConditionalRegistration) -> bool
    ensures { IsTrue result ↔ (a.now ≡ b.now) }
{
    a.loci.equals(&b.loci) && a.from.equals(&b.from) && a.to.equals(&b.to) && a.ty.equals(&b.ty)
}

/// Whether the registrations are equal.
pub fn functorial_equal(a: &FunctorialRegistration, b: &FunctorialRegistration) -> bool
    ensures { IsTrue result ↔ (a.now ≡ b.now) }
{
    a.loci.equals(&b.loci)
        && a.term.equals(&b.term)
        && a.adjectives.equals(&b.adjectives)
        && type_if_any_equal(&a.ty, &b.ty)
}

/// Whether the registrations are equal.
pub fn equation_equal(a: &EquationRegistration, b: &EquationRegistration) -> bool
    ensures { IsTrue result ↔ (a.now ≡ b.now) }
{
    a.loci.equals(&b.loci) && a.left.equals(&b.left) && a.right.equals(&b.right)
}
