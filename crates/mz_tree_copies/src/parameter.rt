//! Parameters of schemes.
ghost use Rattle.std.specs.Prelude.{◌≡◌, IfOk};

use crate::pairs::{copied_pair, copied_triple};
use crate::tree::Copied;
use mz_tree_part::parameter::ParameterTree;
use std::alloc::{AllocError, Global};

impl Copied for ParameterTree {
    fn copy(&self, alloc: Global) -> Result<ParameterTree, AllocError> {
        match self {
            ParameterTree::Functor {
                identifiers,
                left,
                types,
                right,
                arrow,
                ty,
            } => {
                let (identifiers, types, ty) = copied_triple(alloc, identifiers, types, ty)?;
                Ok(ParameterTree::Functor {
                    identifiers,
                    left: *left,
                    types,
                    right: *right,
                    arrow: *arrow,
                    ty,
                })
            }
            ParameterTree::Predicate {
                identifiers,
                left,
                types,
                right,
            } => {
                let (identifiers, types) = copied_pair(alloc, identifiers, types)?;
                Ok(ParameterTree::Predicate {
                    identifiers,
                    left: *left,
                    types,
                    right: *right,
                })
            }
        }
    }
}
