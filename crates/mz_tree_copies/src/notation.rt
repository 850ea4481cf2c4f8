//! Notations: synonyms and antonyms, and the loci of blocks.
ghost use Rattle.std.specs.Prelude.{◌≡◌, IfOk};

use crate::pairs::copied_pair;
use crate::tree::Copied;
use mz_tree_part::notation::{BlockLetTree, NotationPartTree, NotationTree};
use std::alloc::{AllocError, Global};

impl Copied for BlockLetTree {
    fn copy(&self, alloc: Global) -> Result<BlockLetTree, AllocError> {
        let declarations = self.declarations.copy(alloc)?;
        Ok(BlockLetTree {
            let_: self.let_,
            declarations,
            semicolon: self.semicolon,
        })
    }
}

impl Copied for NotationPartTree {
    fn copy(&self, alloc: Global) -> Result<NotationPartTree, AllocError> {
        match self {
            NotationPartTree::Let(part) => Ok(NotationPartTree::Let(part.copy(alloc)?)),
            NotationPartTree::Notation {
                place,
                word,
                first,
                for_,
                second,
                semicolon,
            } => {
                let (first, second) = copied_pair(alloc, first, second)?;
                Ok(NotationPartTree::Notation {
                    place: *place,
                    word: *word,
                    first,
                    for_: *for_,
                    second,
                    semicolon: *semicolon,
                })
            }
        }
    }
}

impl Copied for NotationTree {
    fn copy(&self, alloc: Global) -> Result<NotationTree, AllocError> {
        let parts = self.parts.copy(alloc)?;
        Ok(NotationTree {
            notation: self.notation,
            parts,
            end: self.end,
            semicolon: self.semicolon,
        })
    }
}
