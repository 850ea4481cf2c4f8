//! Lists of trees, with commas between them or without, and trees that may be left out.
ghost use Rattle.std.specs.Prelude.{◌≡◌, IfOk};

use crate::tree::Copied;
use mz_tree::chain::Next;
use mz_tree::lists::{Separated, Trees};
use mz_tree::word::Comma;
use std::alloc::{AllocError, Global};

impl<T: Copied> Copied for Trees<T> {
    fn copy(&self, alloc: Global) -> Result<Trees<T>, AllocError> {
        let mut items = Vec::new(alloc);
        for tree in &self.items {
            items.push(tree.copy(alloc)?)?;
        }
        Ok(Trees { items })
    }
}

impl<T: Copied> Copied for Option<T> {
    fn copy(&self, alloc: Global) -> Result<Option<T>, AllocError> {
        match self {
            Some(tree) => Ok(Some(tree.copy(alloc)?)),
            None => Ok(None),
        }
    }
}

impl<T: Copied> Copied for Next<Comma, T> {
    fn copy(&self, alloc: Global) -> Result<Next<Comma, T>, AllocError> {
        let tree = self.tree.copy(alloc)?;
        Ok(Next {
            sign: self.sign,
            tree,
        })
    }
}

impl<T: Copied> Copied for Separated<T> {
    fn copy(&self, alloc: Global) -> Result<Separated<T>, AllocError> {
        let first = self.first.copy(alloc)?;
        let more = self.more.copy(alloc)?;
        Ok(Separated { first, more })
    }
}
