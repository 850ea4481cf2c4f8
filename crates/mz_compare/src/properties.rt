//! Comparison of properties.
ghost use Rattle.std.specs.Prelude.{◌≡◌, ◌↔◌, IsTrue};

use mz_core::property::{Operation, Property, PropertyForm, Relation, UnaryOperation};

/// Whether the predicates are equal.
pub fn relation_equal(a: &Relation, b: &Relation) -> bool
    ensures { IsTrue result ↔ (a.now ≡ b.now) }
{
    a.literal.equals(&b.literal) && a.left == b.left && a.right == b.right
}

/// Whether the functors are equal.
pub fn operation_equal(a: &Operation, b: &Operation) -> bool
    ensures { IsTrue result ↔ (a.now ≡ b.now) }
{
    a.term.equals(&b.term) && a.left == b.left && a.right == b.right
}

/// Whether the functors are equal.
pub fn unary_operation_equal(a: &UnaryOperation, b: &UnaryOperation) -> bool
    ensures { IsTrue result ↔ (a.now ≡ b.now) }
{
    a.term.equals(&b.term) && a.place == b.place
}

/// Whether the forms are equal.
pub fn property_form_equal(a: &PropertyForm, b: &PropertyForm) -> bool
    ensures { IsTrue result ↔ (a.now ≡ b.now) }
{
    match (a, b) {
        (PropertyForm::Reflexivity(x), PropertyForm::Reflexivity(u)) => relation_equal(x, u),
        (PropertyForm::Irreflexivity(x), PropertyForm::Irreflexivity(u)) => relation_equal(x, u),
        (PropertyForm::Symmetry(x), PropertyForm::Symmetry(u)) => relation_equal(x, u),
        (PropertyForm::Asymmetry(x), PropertyForm::Asymmetry(u)) => relation_equal(x, u),
        (PropertyForm::Connectedness(x), PropertyForm::Connectedness(u)) => relation_equal(x, u),
        (PropertyForm::Commutativity(x), PropertyForm::Commutativity(u)) => operation_equal(x, u),
        (PropertyForm::Idempotence(x), PropertyForm::Idempotence(u)) => operation_equal(x, u),
        (PropertyForm::Involutiveness(x), PropertyForm::Involutiveness(u)) => unary_operation_equal(
            x, u,
        ),
        (PropertyForm::Projectivity(x), PropertyForm::Projectivity(u)) => unary_operation_equal(
            x, u,
        ),
        (PropertyForm::Sethood(x), PropertyForm::Sethood(u)) => x.is(*u),
        _ => false,
    }
}

/// Whether the properties are equal.
pub fn property_equal(a: &Property, b: &Property) -> bool
    ensures { IsTrue result ↔ (a.now ≡ b.now) }
{
    a.loci.equals(&b.loci) && property_form_equal(&a.form, &b.form)
}
