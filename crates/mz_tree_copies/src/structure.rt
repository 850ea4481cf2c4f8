//! Structures: their loci, ancestors and fields.
ghost use Rattle.std.specs.Prelude.{◌≡◌, IfOk};

use crate::pairs::{copied_pair, copied_triple};
use crate::tree::Copied;
use mz_tree_heading::structure::{
    AncestorsTree, FieldTree, SelectorTree, StructureLociTree, StructureTree,
};
use std::alloc::{AllocError, Global};

impl Copied for SelectorTree {
    fn copy(&self, alloc: Global) -> Result<SelectorTree, AllocError> {
        let symbol = self.symbol.copy(alloc)?;
        Ok(SelectorTree { symbol })
    }
}

impl Copied for FieldTree {
    fn copy(&self, alloc: Global) -> Result<FieldTree, AllocError> {
        let (selectors, ty) = copied_pair(alloc, &self.selectors, &self.ty)?;
        Ok(FieldTree {
            selectors,
            arrow: self.arrow,
            ty,
        })
    }
}

impl Copied for StructureLociTree {
    fn copy(&self, alloc: Global) -> Result<StructureLociTree, AllocError> {
        let identifiers = self.identifiers.copy(alloc)?;
        Ok(StructureLociTree {
            over: self.over,
            identifiers,
        })
    }
}

impl Copied for AncestorsTree {
    fn copy(&self, alloc: Global) -> Result<AncestorsTree, AllocError> {
        let types = self.types.copy(alloc)?;
        Ok(AncestorsTree {
            left: self.left,
            types,
            right: self.right,
        })
    }
}

impl Copied for StructureTree {
    fn copy(&self, alloc: Global) -> Result<StructureTree, AllocError> {
        let symbol = self.symbol.copy(alloc)?;
        let (ancestors, loci, fields) = copied_triple(
            alloc,
            &self.ancestors,
            &self.loci,
            &self.fields,
        )?;
        Ok(StructureTree {
            struct_: self.struct_,
            ancestors,
            symbol,
            loci,
            left: self.left,
            fields,
            right: self.right,
            semicolon: self.semicolon,
        })
    }
}
