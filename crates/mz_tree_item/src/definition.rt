//! Definitions: headings with their conditions and properties.
use mz_base::place::Place;
use mz_tree::lists::Trees;
use mz_tree_heading::heading::HeadingTree;
use mz_tree_part::notation::BlockLetTree;
use mz_tree_part::words::{ConditionWord, PropertyWord};
use mz_tree_proof::reasoning::JustTree;

/// A condition and its justification.
pub struct ConditionTree {
    pub place: Place,
    pub word: ConditionWord,
    pub just: JustTree,
    pub semicolon: Place,
}

impl Drop for ConditionTree {
    fn drop(self) {
        let ConditionTree {
            place: _place,
            word: _word,
            just: _just,
            semicolon: _semicolon,
        } = self;
    }
}

/// A property and its justification.
pub struct PropertyTree {
    pub place: Place,
    pub word: PropertyWord,
    pub just: JustTree,
    pub semicolon: Place,
}

impl Drop for PropertyTree {
    fn drop(self) {
        let PropertyTree {
            place: _place,
            word: _word,
            just: _just,
            semicolon: _semicolon,
        } = self;
    }
}

/// A condition or a property behind a heading.
pub enum ConditionOrPropertyTree {
    Condition(ConditionTree),
    Property(PropertyTree),
}

impl Drop for ConditionOrPropertyTree {
    fn drop(self) {
        match self {
            ConditionOrPropertyTree::Condition(_a) => (),
            ConditionOrPropertyTree::Property(_a) => (),
        }
    }
}

/// A part of a block of definitions: loci, or a heading with its conditions and properties.
pub enum DefinitionPartTree {
    Let(BlockLetTree),
    Heading {
        heading: HeadingTree,
        conditions: Trees<ConditionOrPropertyTree>,
    },
}

impl Drop for DefinitionPartTree {
    fn drop(self) {
        match self {
            DefinitionPartTree::Let(_a) => (),
            DefinitionPartTree::Heading {
                heading: _heading,
                conditions: _conditions,
            } => (),
        }
    }
}

/// A block of definitions.
pub struct DefinitionTree {
    pub definition: Place,
    pub parts: Trees<DefinitionPartTree>,
    pub end: Place,
    pub semicolon: Place,
}

impl Drop for DefinitionTree {
    fn drop(self) {
        let DefinitionTree {
            definition: _definition,
            parts: _parts,
            end: _end,
            semicolon: _semicolon,
        } = self;
    }
}
