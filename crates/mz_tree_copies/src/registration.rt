//! Registrations: clusters with their conditions.
ghost use Rattle.std.specs.Prelude.{◌≡◌, IfOk};

use crate::pairs::copied_pair;
use crate::tree::Copied;
use mz_tree_item::registration::{RegistrationPartTree, RegistrationTree};
use std::alloc::{AllocError, Global};

impl Copied for RegistrationPartTree {
    fn copy(&self, alloc: Global) -> Result<RegistrationPartTree, AllocError> {
        match self {
            RegistrationPartTree::Let(part) => Ok(RegistrationPartTree::Let(part.copy(alloc)?)),
            RegistrationPartTree::Cluster {
                cluster,
                conditions,
            } => {
                let (cluster, conditions) = copied_pair(alloc, cluster, conditions)?;
                Ok(RegistrationPartTree::Cluster {
                    cluster,
                    conditions,
                })
            }
        }
    }
}

impl Copied for RegistrationTree {
    fn copy(&self, alloc: Global) -> Result<RegistrationTree, AllocError> {
        let parts = self.parts.copy(alloc)?;
        Ok(RegistrationTree {
            registration: self.registration,
            parts,
            end: self.end,
            semicolon: self.semicolon,
        })
    }
}
