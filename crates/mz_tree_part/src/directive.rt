//! Directives.
use crate::words::DirectiveWord;
use mz_base::place::Place;
use mz_tree::lists::Separated;
use mz_tree_heading::patterns::IdentifierTree;

/// A directive.
pub struct DirectiveTree {
    pub place: Place,
    pub word: DirectiveWord,
    pub names: Separated<IdentifierTree>,
    pub semicolon: Place,
}

impl Drop for DirectiveTree {
    fn drop(self) {
        let DirectiveTree {
            place: _place,
            word: _word,
            names: _names,
            semicolon: _semicolon,
        } = self;
    }
}
