//! The trees of expressions: terms, types, adjectives, declarations and formulas.
ghost use Rattle.std.specs.Prelude.{◌≡◌, map};
ghost use Rattle.mz_tree.specs.Trees.{adjectives_of};
ghost use Rattle.mz_tree.specs.Views.{term_of, terms_of, type_of, adjective_of, adjectives_seen, declarations_of, formula_of};

use crate::nodes::{AdjectiveNode, DeclarationsNode, FormulaNode, TermNode, TermsNode, TypeNode};
use std::marker::Model;

/// A term.
pub struct TermTree {
    pub node: TermNode,
}

impl Drop for TermTree {
    fn drop(self) {
        let TermTree { node: _node } = self;
    }
}

impl Model for TermTree {
    ghost use Rattle.mz_tree.specs.Trees.{TermData};
    ghost use Rattle.mz_tree.specs.Codes.{term_code};

    ghost Value = { TermData };

    ghost coded = { term_code };

    ghost use Rattle.mz_tree.specs.Views.{term_of};

    ghost view = { λ a. term_of a.node };
}

impl TermTree {
    /// The tree of the node.
    pub fn from_node(node: TermNode) -> TermTree
        ensures { result ≡ term_of node }
    {
        TermTree { node }
    }

    /// The node.
    pub fn node(&self) -> &TermNode
        ensures { term_of result.now ≡ self.now }
    {
        &self.node
    }
}

/// Terms with list commas between them.
pub struct TermsTree {
    pub node: TermsNode,
}

impl Drop for TermsTree {
    fn drop(self) {
        let TermsTree { node: _node } = self;
    }
}

impl Model for TermsTree {
    ghost use Rattle.mz_tree.specs.Trees.{TermsData};
    ghost use Rattle.mz_tree.specs.Codes.{terms_code};

    ghost Value = { TermsData };

    ghost coded = { terms_code };

    ghost use Rattle.mz_tree.specs.Views.{terms_of};

    ghost view = { λ a. terms_of a.node };
}

impl TermsTree {
    /// The tree of the node.
    pub fn from_node(node: TermsNode) -> TermsTree
        ensures { result ≡ terms_of node }
    {
        TermsTree { node }
    }

    /// The node.
    pub fn node(&self) -> &TermsNode
        ensures { terms_of result.now ≡ self.now }
    {
        &self.node
    }
}

/// A type.
pub struct TypeTree {
    pub node: Box<TypeNode>,
}

impl Drop for TypeTree {
    fn drop(self) {
        let TypeTree { node: _node } = self;
    }
}

impl Model for TypeTree {
    ghost use Rattle.mz_tree.specs.Trees.{TypeData};
    ghost use Rattle.mz_tree.specs.Codes.{type_code};

    ghost Value = { TypeData };

    ghost coded = { type_code };

    ghost use Rattle.mz_tree.specs.Views.{type_of};

    ghost view = { λ a. type_of a.node.value };
}

impl TypeTree {
    /// The tree of the node.
    pub fn from_node(node: Box<TypeNode>) -> TypeTree
        ensures { result ≡ type_of node.value }
    {
        TypeTree { node }
    }

    /// The node.
    pub fn node(&self) -> &TypeNode
        ensures { type_of result.now ≡ self.now }
    {
        &*self.node
    }
}

/// Adjectives, at least one.
pub struct AdjectivesTree {
    pub first: AdjectiveNode,
    pub more: Vec<AdjectiveNode>,
}

impl Drop for AdjectivesTree {
    fn drop(self) {
        let AdjectivesTree {
            first: _first,
            more: _more,
        } = self;
    }
}

impl Model for AdjectivesTree {
    ghost use Rattle.mz_tree.specs.Trees.{AdjectivesData};
    ghost use Rattle.mz_tree.specs.Codes.{adjectives_code};

    ghost Value = { AdjectivesData };

    ghost coded = { adjectives_code };

    ghost use Rattle.mz_tree.specs.Views.{adjectives_seen};

    ghost view = { λ a. adjectives_seen a.first a.more };
}

impl AdjectivesTree {
    /// The tree of the nodes.
    pub fn from_nodes(first: AdjectiveNode, more: Vec<AdjectiveNode>) -> AdjectivesTree
        ensures { result ≡ adjectives_seen first more }
    {
        AdjectivesTree { first, more }
    }

    /// The first node.
    pub fn first(&self) -> &AdjectiveNode
        ensures { adjective_of result.now ≡ self.now.first }
    {
        &self.first
    }

    /// The nodes behind the first.
    pub fn more(&self) -> &[AdjectiveNode]
        ensures { adjectives_of (map adjective_of result.now) ≡ self.now.more }
    {
        &self.more
    }
}

/// Declarations with commas between them.
pub struct DeclarationsTree {
    pub node: DeclarationsNode,
}

impl Drop for DeclarationsTree {
    fn drop(self) {
        let DeclarationsTree { node: _node } = self;
    }
}

impl Model for DeclarationsTree {
    ghost use Rattle.mz_tree.specs.Trees.{DeclarationsData};
    ghost use Rattle.mz_tree.specs.Codes.{declarations_code};

    ghost Value = { DeclarationsData };

    ghost coded = { declarations_code };

    ghost use Rattle.mz_tree.specs.Views.{declarations_of};

    ghost view = { λ a. declarations_of a.node };
}

impl DeclarationsTree {
    /// The tree of the node.
    pub fn from_node(node: DeclarationsNode) -> DeclarationsTree
        ensures { result ≡ declarations_of node }
    {
        DeclarationsTree { node }
    }

    /// The node.
    pub fn node(&self) -> &DeclarationsNode
        ensures { declarations_of result.now ≡ self.now }
    {
        &self.node
    }
}

/// A formula.
pub struct FormulaTree {
    pub node: Box<FormulaNode>,
}

impl Drop for FormulaTree {
    fn drop(self) {
        let FormulaTree { node: _node } = self;
    }
}

impl Model for FormulaTree {
    ghost use Rattle.mz_tree.specs.Trees.{FormulaData};
    ghost use Rattle.mz_tree.specs.Codes.{formula_code};

    ghost Value = { FormulaData };

    ghost coded = { formula_code };

    ghost use Rattle.mz_tree.specs.Views.{formula_of};

    ghost view = { λ a. formula_of a.node.value };
}

impl FormulaTree {
    /// The tree of the node.
    pub fn from_node(node: Box<FormulaNode>) -> FormulaTree
        ensures { result ≡ formula_of node.value }
    {
        FormulaTree { node }
    }

    /// The node.
    pub fn node(&self) -> &FormulaNode
        ensures { formula_of result.now ≡ self.now }
    {
        &*self.node
    }
}
