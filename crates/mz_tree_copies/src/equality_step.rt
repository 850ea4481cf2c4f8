//! The further sides of an iterative equality.
ghost use Rattle.std.specs.Prelude.{◌≡◌, IfOk};

use crate::tree::Copied;
use mz_tree_proof::equality_step::EqualityStepTree;
use std::alloc::{AllocError, Global};

impl Copied for EqualityStepTree {
    fn copy(&self, alloc: Global) -> Result<EqualityStepTree, AllocError> {
        let term = self.term.copy(alloc)?;
        let simple = self.simple.copy(alloc)?;
        Ok(EqualityStepTree {
            sign: self.sign,
            term,
            simple,
        })
    }
}
