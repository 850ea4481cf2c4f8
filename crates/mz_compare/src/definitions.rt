//! Comparison of definitions and redefinitions.
ghost use Rattle.std.specs.Prelude.{◌≡◌, ◌↔◌, IsTrue};

use crate::cases::{formula_definiens_equal, term_definiens_equal};
use crate::notations::pattern_equal;
use mz_core::definition::{AtomDefinition, AttributeDefinition, EqualsDefinition, MeansDefinition};
use mz_core::formula_definiens::FormulaDefiniens;
use mz_core::redefinition::{
    AtomRedefinition, FunctorMeaning, FunctorRedefinition, ModeRedefinition,
};
use mz_core::soft_type::SoftType;

/// Whether the definitions are equal.
pub fn means_definition_equal(a: &MeansDefinition, b: &MeansDefinition) -> bool
    ensures { IsTrue result ↔ (a.now ≡ b.now) }
{
    pattern_equal(&a.pattern, &b.pattern)
        && a.sym.is(b.sym)
        && a.ty.equals(&b.ty)
        && formula_definiens_equal(&a.definiens, &b.definiens)
}

/// Whether the definitions are equal.
pub fn equals_definition_equal(a: &EqualsDefinition, b: &EqualsDefinition) -> bool
    ensures { IsTrue result ↔ (a.now ≡ b.now) }
{
    pattern_equal(&a.pattern, &b.pattern)
        && a.sym.is(b.sym)
        && a.ty.equals(&b.ty)
        && term_definiens_equal(&a.definiens, &b.definiens)
}

/// Whether the definitions are equal.
pub fn atom_definition_equal(a: &AtomDefinition, b: &AtomDefinition) -> bool
    ensures { IsTrue result ↔ (a.now ≡ b.now) }
{
    pattern_equal(&a.pattern, &b.pattern)
        && a.sym.is(b.sym)
        && formula_definiens_equal(&a.definiens, &b.definiens)
}

/// Whether the definitions are equal.
pub fn attribute_definition_equal(a: &AttributeDefinition, b: &AttributeDefinition) -> bool
    ensures { IsTrue result ↔ (a.now ≡ b.now) }
{
    pattern_equal(&a.pattern, &b.pattern)
        && a.subject == b.subject
        && a.sym.is(b.sym)
        && formula_definiens_equal(&a.definiens, &b.definiens)
}

/// Whether the meanings are equal.
pub fn functor_meaning_equal(a: &FunctorMeaning, b: &FunctorMeaning) -> bool
    ensures { IsTrue result ↔ (a.now ≡ b.now) }
{
    match (a, b) {
        (FunctorMeaning::Means(x), FunctorMeaning::Means(u)) => formula_definiens_equal(x, u),
        (FunctorMeaning::Equals(x), FunctorMeaning::Equals(u)) => term_definiens_equal(x, u),
        _ => false,
    }
}

/// Whether the types, where there is one, are equal.
pub fn type_if_any_equal(a: &Option<SoftType>, b: &Option<SoftType>) -> bool
    ensures { IsTrue result ↔ (a.now ≡ b.now) }
{
    match (a, b) {
        (None, None) => true,
        (Some(x), Some(y)) => x.equals(y),
        _ => false,
    }
}

/// Whether the meanings, where there is one, are equal.
pub fn functor_meaning_if_any_equal(a: &Option<FunctorMeaning>, b: &Option<FunctorMeaning>) -> bool
    ensures { IsTrue result ↔ (a.now ≡ b.now) }
{
    match (a, b) {
        (None, None) => true,
        (Some(x), Some(y)) => functor_meaning_equal(x, y),
        _ => false,
    }
}

/// Whether the definientia, where there is one, are equal.
pub fn definiens_if_any_equal(a: &Option<FormulaDefiniens>, b: &Option<FormulaDefiniens>) -> bool
    ensures { IsTrue result ↔ (a.now ≡ b.now) }
{
    match (a, b) {
        (None, None) => true,
        (Some(x), Some(y)) => formula_definiens_equal(x, y),
        _ => false,
    }
}

/// Whether the redefinitions are equal.
pub fn functor_redefinition_equal(a: &FunctorRedefinition, b: &FunctorRedefinition) -> bool
    ensures { IsTrue result ↔ (a.now ≡ b.now) }
{
    pattern_equal(&a.pattern, &b.pattern)
        && a.term.equals(&b.term)
        && a.old.equals(&b.old)
        && type_if_any_equal(&a.ty, &b.ty)
        && functor_meaning_if_any_equal(&a.meaning, &b.meaning)
}

/// Whether the redefinitions are equal.
pub fn mode_redefinition_equal(a: &ModeRedefinition, b: &ModeRedefinition) -> bool
    ensures { IsTrue result ↔ (a.now ≡ b.now) }
{
    pattern_equal(&a.pattern, &b.pattern)
        && a.mode.equals(&b.mode)
        && a.old.equals(&b.old)
        && type_if_any_equal(&a.ty, &b.ty)
        && definiens_if_any_equal(&a.meaning, &b.meaning)
}

/// Whether the redefinitions are equal.
pub fn atom_redefinition_equal(a: &AtomRedefinition, b: &AtomRedefinition) -> bool
    ensures { IsTrue result ↔ (a.now ≡ b.now) }
{
    pattern_equal(&a.pattern, &b.pattern)
        && a.literal.equals(&b.literal)
        && definiens_if_any_equal(&a.meaning, &b.meaning)
}
