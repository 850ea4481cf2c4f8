//! Registrations: clusters with their conditions.
use crate::definition::ConditionTree;
use mz_base::place::Place;
use mz_tree::lists::Trees;
use mz_tree_part::cluster::ClusterTree;
use mz_tree_part::notation::BlockLetTree;

/// A part of a block of registrations: loci, or a registration with its conditions.
pub enum RegistrationPartTree {
    Let(BlockLetTree),
    Cluster {
        cluster: ClusterTree,
        conditions: Trees<ConditionTree>,
    },
}

impl Drop for RegistrationPartTree {
    fn drop(self) {
        match self {
            RegistrationPartTree::Let(_a) => (),
            RegistrationPartTree::Cluster {
                cluster: _cluster,
                conditions: _conditions,
            } => (),
        }
    }
}

/// A block of registrations.
pub struct RegistrationTree {
    pub registration: Place,
    pub parts: Trees<RegistrationPartTree>,
    pub end: Place,
    pub semicolon: Place,
}

impl Drop for RegistrationTree {
    fn drop(self) {
        let RegistrationTree {
            registration: _registration,
            parts: _parts,
            end: _end,
            semicolon: _semicolon,
        } = self;
    }
}
