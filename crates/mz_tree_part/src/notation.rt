//! Notations: synonyms and antonyms, and the loci of blocks.
use crate::words::NotationWord;
use mz_base::place::Place;
use mz_tree::expressions::DeclarationsTree;
use mz_tree::lists::Trees;
use mz_tree_heading::patterns::PatternTree;

/// The loci of a block.
pub struct BlockLetTree {
    pub let_: Place,
    pub declarations: DeclarationsTree,
    pub semicolon: Place,
}

impl Drop for BlockLetTree {
    fn drop(self) {
        let BlockLetTree {
            let_: _let,
            declarations: _declarations,
            semicolon: _semicolon,
        } = self;
    }
}

/// A part of a block of notations: loci, or a further pattern for an old one.
pub enum NotationPartTree {
    Let(BlockLetTree),
    Notation {
        place: Place,
        word: NotationWord,
        first: PatternTree,
        for_: Place,
        second: PatternTree,
        semicolon: Place,
    },
}

impl Drop for NotationPartTree {
    fn drop(self) {
        match self {
            NotationPartTree::Let(_a) => (),
            NotationPartTree::Notation {
                place: _place,
                word: _word,
                first: _first,
                for_: _for,
                second: _second,
                semicolon: _semicolon,
            } => (),
        }
    }
}

/// A block of notations.
pub struct NotationTree {
    pub notation: Place,
    pub parts: Trees<NotationPartTree>,
    pub end: Place,
    pub semicolon: Place,
}

impl Drop for NotationTree {
    fn drop(self) {
        let NotationTree {
            notation: _notation,
            parts: _parts,
            end: _end,
            semicolon: _semicolon,
        } = self;
    }
}
