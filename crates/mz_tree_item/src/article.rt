//! Articles and their items.
ghost use Rattle.std.specs.Prelude.{Some, ◌≡◌};
ghost use Rattle.mz_tree.specs.Places.{first_place};
ghost use Rattle.mz_tree_item.specs.Spell.{spell_item};

use crate::definition::DefinitionTree;
use crate::registration::RegistrationTree;
use crate::schemes::{SchemeTree, TheoremTree};
use mz_base::place::Place;
use mz_tree::lists::Trees;
use mz_tree_part::directive::DirectiveTree;
use mz_tree_part::notation::NotationTree;
use mz_tree_part::reserve::ReserveTree;
use mz_tree_proof::reasoning::StatementTree;

/// An item.
pub enum ItemTree {
    Reserve(ReserveTree),
    Theorem(TheoremTree),
    Scheme(SchemeTree),
    Definition(DefinitionTree),
    Notation(NotationTree),
    Registration(RegistrationTree),
    Statement(StatementTree),
}

impl Drop for ItemTree {
    fn drop(self) {
        match self {
            ItemTree::Reserve(_a) => (),
            ItemTree::Theorem(_a) => (),
            ItemTree::Scheme(_a) => (),
            ItemTree::Definition(_a) => (),
            ItemTree::Notation(_a) => (),
            ItemTree::Registration(_a) => (),
            ItemTree::Statement(_a) => (),
        }
    }
}

impl ItemTree {
    /// The place of its first token.
    pub fn first_place(&self) -> Place
        ensures { first_place (spell_item self.now) ≡ Some result }
    {
        match self {
            ItemTree::Reserve(item) => item.reserve,
            ItemTree::Theorem(item) => item.theorem,
            ItemTree::Scheme(item) => item.scheme,
            ItemTree::Definition(item) => item.definition,
            ItemTree::Notation(item) => item.notation,
            ItemTree::Registration(item) => item.registration,
            ItemTree::Statement(item) => item.first_place(),
        }
    }
}

/// A further `begin`, or an item.
pub enum ArticlePartTree {
    Begin(Place),
    Item(ItemTree),
}

impl Drop for ArticlePartTree {
    fn drop(self) {
        match self {
            ArticlePartTree::Begin(_a) => (),
            ArticlePartTree::Item(_a) => (),
        }
    }
}

/// An article.
pub struct ArticleTree {
    pub environ: Place,
    pub directives: Trees<DirectiveTree>,
    pub begin: Place,
    pub parts: Trees<ArticlePartTree>,
}

impl Drop for ArticleTree {
    fn drop(self) {
        let ArticleTree {
            environ: _environ,
            directives: _directives,
            begin: _begin,
            parts: _parts,
        } = self;
    }
}

/// Lets go of the tree. It is a call, so that the drops of all its parts are proved once, in this crate.
pub fn end(_tree: ArticleTree) {}
