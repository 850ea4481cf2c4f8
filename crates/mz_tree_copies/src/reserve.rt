//! Reservations.
ghost use Rattle.std.specs.Prelude.{◌≡◌, IfOk};

use crate::pairs::copied_pair;
use crate::tree::Copied;
use mz_tree_part::reserve::{ReserveTree, SegmentTree};
use std::alloc::{AllocError, Global};

impl Copied for SegmentTree {
    fn copy(&self, alloc: Global) -> Result<SegmentTree, AllocError> {
        let (identifiers, ty) = copied_pair(alloc, &self.identifiers, &self.ty)?;
        Ok(SegmentTree {
            identifiers,
            for_: self.for_,
            ty,
        })
    }
}

impl Copied for ReserveTree {
    fn copy(&self, alloc: Global) -> Result<ReserveTree, AllocError> {
        let segments = self.segments.copy(alloc)?;
        Ok(ReserveTree {
            reserve: self.reserve,
            segments,
            semicolon: self.semicolon,
        })
    }
}
