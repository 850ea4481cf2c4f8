//! Directives.
ghost use Rattle.std.specs.Prelude.{◌≡◌, IfOk};

use crate::tree::Copied;
use mz_tree_part::directive::DirectiveTree;
use std::alloc::{AllocError, Global};

impl Copied for DirectiveTree {
    fn copy(&self, alloc: Global) -> Result<DirectiveTree, AllocError> {
        let names = self.names.copy(alloc)?;
        Ok(DirectiveTree {
            place: self.place,
            word: self.word,
            names,
            semicolon: self.semicolon,
        })
    }
}
