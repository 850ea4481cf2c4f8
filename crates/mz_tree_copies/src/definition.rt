//! Definitions: headings with their conditions and properties.
ghost use Rattle.std.specs.Prelude.{◌≡◌, IfOk};

use crate::pairs::copied_pair;
use crate::tree::Copied;
use mz_tree_item::definition::{
    ConditionOrPropertyTree, ConditionTree, DefinitionPartTree, DefinitionTree, PropertyTree,
};
use std::alloc::{AllocError, Global};

impl Copied for ConditionTree {
    fn copy(&self, alloc: Global) -> Result<ConditionTree, AllocError> {
        let just = self.just.copy(alloc)?;
        Ok(ConditionTree {
            place: self.place,
            word: self.word,
            just,
            semicolon: self.semicolon,
        })
    }
}

impl Copied for PropertyTree {
    fn copy(&self, alloc: Global) -> Result<PropertyTree, AllocError> {
        let just = self.just.copy(alloc)?;
        Ok(PropertyTree {
            place: self.place,
            word: self.word,
            just,
            semicolon: self.semicolon,
        })
    }
}

impl Copied for ConditionOrPropertyTree {
    fn copy(&self, alloc: Global) -> Result<ConditionOrPropertyTree, AllocError> {
        match self {
            ConditionOrPropertyTree::Condition(part) => Ok(ConditionOrPropertyTree::Condition(
                part.copy(alloc)?,
            )),
            ConditionOrPropertyTree::Property(part) => Ok(ConditionOrPropertyTree::Property(
                part.copy(alloc)?,
            )),
        }
    }
}

impl Copied for DefinitionPartTree {
    fn copy(&self, alloc: Global) -> Result<DefinitionPartTree, AllocError> {
        match self {
            DefinitionPartTree::Let(part) => Ok(DefinitionPartTree::Let(part.copy(alloc)?)),
            DefinitionPartTree::Heading {
                heading,
                conditions,
            } => {
                let (heading, conditions) = copied_pair(alloc, heading, conditions)?;
                Ok(DefinitionPartTree::Heading {
                    heading,
                    conditions,
                })
            }
        }
    }
}

impl Copied for DefinitionTree {
    fn copy(&self, alloc: Global) -> Result<DefinitionTree, AllocError> {
        let parts = self.parts.copy(alloc)?;
        Ok(DefinitionTree {
            definition: self.definition,
            parts,
            end: self.end,
            semicolon: self.semicolon,
        })
    }
}
