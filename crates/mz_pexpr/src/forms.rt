//! The forms of expressions, and their trees.
use mz_tree::expressions::{
    AdjectivesTree, DeclarationsTree, FormulaTree, TermTree, TermsTree, TypeTree,
};

/// The forms of expressions.
#[derive(Clone, Copy, Debug, PartialEq, Eq)]
pub enum Form {
    Formula,
    Term,
    /// Terms with list commas between them.
    Terms,
    /// A type.
    TypeForm,
    /// Adjectives, at least one.
    Adjectives,
    Declarations,
}

/// A tree of one of the forms.
#[derive(Drop)]
pub enum Expression {
    Formula(FormulaTree),
    Term(TermTree),
    Terms(TermsTree),
    TypeForm(TypeTree),
    Adjectives(AdjectivesTree),
    Declarations(DeclarationsTree),
}
