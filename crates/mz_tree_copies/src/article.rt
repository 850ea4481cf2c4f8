//! Articles and their items.
ghost use Rattle.std.specs.Prelude.{◌≡◌, IfOk};

use crate::pairs::copied_pair;
use crate::tree::Copied;
use mz_tree_item::article::{ArticlePartTree, ArticleTree, ItemTree};
use std::alloc::{AllocError, Global};

impl Copied for ItemTree {
    fn copy(&self, alloc: Global) -> Result<ItemTree, AllocError> {
        match self {
            ItemTree::Reserve(part) => Ok(ItemTree::Reserve(part.copy(alloc)?)),
            ItemTree::Theorem(part) => Ok(ItemTree::Theorem(part.copy(alloc)?)),
            ItemTree::Scheme(part) => Ok(ItemTree::Scheme(part.copy(alloc)?)),
            ItemTree::Definition(part) => Ok(ItemTree::Definition(part.copy(alloc)?)),
            ItemTree::Notation(part) => Ok(ItemTree::Notation(part.copy(alloc)?)),
            ItemTree::Registration(part) => Ok(ItemTree::Registration(part.copy(alloc)?)),
            ItemTree::Statement(part) => Ok(ItemTree::Statement(part.copy(alloc)?)),
        }
    }
}

impl Copied for ArticlePartTree {
    fn copy(&self, alloc: Global) -> Result<ArticlePartTree, AllocError> {
        match self {
            ArticlePartTree::Begin(part) => Ok(ArticlePartTree::Begin(*part)),
            ArticlePartTree::Item(part) => Ok(ArticlePartTree::Item(part.copy(alloc)?)),
        }
    }
}

impl Copied for ArticleTree {
    fn copy(&self, alloc: Global) -> Result<ArticleTree, AllocError> {
        let (directives, parts) = copied_pair(alloc, &self.directives, &self.parts)?;
        Ok(ArticleTree {
            environ: self.environ,
            directives,
            begin: self.begin,
            parts,
        })
    }
}
