//! The items of an article.
use crate::definition::{AtomDefinition, AttributeDefinition, EqualsDefinition, MeansDefinition};
use crate::notation::Notation;
use crate::property::Property;
use crate::redefinition::{AtomRedefinition, FunctorRedefinition, ModeRedefinition};
use crate::registration::{
    ConditionalRegistration, EquationRegistration, ExistentialRegistration, FunctorialRegistration,
};
use crate::scheme::Scheme;
use crate::set_term::{Choice, SetTerm};
use crate::statement::Statement;
use crate::structure::Structure;

/// An item of an article. An item of a checked article has no constant and no loose index. `Axiom`,
/// `AxiomScheme` and `Primitive` are those of the built-in articles, which owe nothing.
pub enum Item {
    Axiom(Statement),
    AxiomScheme(Scheme),
    Primitive(Notation),
    Theorem(Statement),
    Scheme(Scheme),
    FunctorMeans(MeansDefinition),
    FunctorEquals(EqualsDefinition),
    Predicate(AtomDefinition),
    Attribute(AttributeDefinition),
    ModeMeans(MeansDefinition),
    Abbreviation(Notation),
    Notation(Notation),
    RedefinedFunctor(FunctorRedefinition),
    RedefinedMode(ModeRedefinition),
    RedefinedPredicate(AtomRedefinition),
    RedefinedAttribute(AtomRedefinition),
    Property(Property),
    Existential(ExistentialRegistration),
    Conditional(ConditionalRegistration),
    Functorial(FunctorialRegistration),
    Reduction(EquationRegistration),
    Identification(EquationRegistration),
    Structure(Structure),
    SetTerm(SetTerm),
    Choice(Choice),
}

impl Drop for Item {
    fn drop(self) {
        match self {
            Item::Axiom(_statement) => {}
            Item::AxiomScheme(_scheme) => {}
            Item::Primitive(_notation) => {}
            Item::Theorem(_statement) => {}
            Item::Scheme(_scheme) => {}
            Item::FunctorMeans(_means_definition) => {}
            Item::FunctorEquals(_equals_definition) => {}
            Item::Predicate(_atom_definition) => {}
            Item::Attribute(_attribute_definition) => {}
            Item::ModeMeans(_means_definition) => {}
            Item::Abbreviation(_notation) => {}
            Item::Notation(_notation) => {}
            Item::RedefinedFunctor(_functor_redefinition) => {}
            Item::RedefinedMode(_mode_redefinition) => {}
            Item::RedefinedPredicate(_atom_redefinition) => {}
            Item::RedefinedAttribute(_atom_redefinition) => {}
            Item::Property(_property) => {}
            Item::Existential(_existential_registration) => {}
            Item::Conditional(_conditional_registration) => {}
            Item::Functorial(_functorial_registration) => {}
            Item::Reduction(_equation_registration) => {}
            Item::Identification(_equation_registration) => {}
            Item::Structure(_structure) => {}
            Item::SetTerm(_set_term) => {}
            Item::Choice(_choice) => {}
        }
    }
}
