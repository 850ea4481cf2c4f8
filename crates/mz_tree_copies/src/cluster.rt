//! Clusters of registrations.
ghost use Rattle.std.specs.Prelude.{◌≡◌, IfOk};

use crate::pairs::{copied_pair, copied_triple};
use crate::tree::Copied;
use mz_tree_part::cluster::{
    ClusterTree, ConditionalTree, ExistentialTree, ForTypeTree, FunctorialTree, IdentifyTree,
    ReduceTree,
};
use std::alloc::{AllocError, Global};

impl Copied for ForTypeTree {
    fn copy(&self, alloc: Global) -> Result<ForTypeTree, AllocError> {
        let ty = self.ty.copy(alloc)?;
        Ok(ForTypeTree {
            for_: self.for_,
            ty,
        })
    }
}

impl Copied for ExistentialTree {
    fn copy(&self, alloc: Global) -> Result<ExistentialTree, AllocError> {
        let (adjectives, ty) = copied_pair(alloc, &self.adjectives, &self.ty)?;
        Ok(ExistentialTree {
            cluster: self.cluster,
            adjectives,
            for_: self.for_,
            ty,
            semicolon: self.semicolon,
        })
    }
}

impl Copied for ConditionalTree {
    fn copy(&self, alloc: Global) -> Result<ConditionalTree, AllocError> {
        let (premises, adjectives, for_type) = copied_triple(
            alloc,
            &self.premises,
            &self.adjectives,
            &self.for_type,
        )?;
        Ok(ConditionalTree {
            cluster: self.cluster,
            premises,
            arrow: self.arrow,
            adjectives,
            for_type,
            semicolon: self.semicolon,
        })
    }
}

impl Copied for FunctorialTree {
    fn copy(&self, alloc: Global) -> Result<FunctorialTree, AllocError> {
        let (term, adjectives, for_type) = copied_triple(
            alloc,
            &self.term,
            &self.adjectives,
            &self.for_type,
        )?;
        Ok(FunctorialTree {
            cluster: self.cluster,
            term,
            arrow: self.arrow,
            adjectives,
            for_type,
            semicolon: self.semicolon,
        })
    }
}

impl Copied for ReduceTree {
    fn copy(&self, alloc: Global) -> Result<ReduceTree, AllocError> {
        let (first, second) = copied_pair(alloc, &self.first, &self.second)?;
        Ok(ReduceTree {
            reduce: self.reduce,
            first,
            to: self.to,
            second,
            semicolon: self.semicolon,
        })
    }
}

impl Copied for IdentifyTree {
    fn copy(&self, alloc: Global) -> Result<IdentifyTree, AllocError> {
        let (first, second) = copied_pair(alloc, &self.first, &self.second)?;
        Ok(IdentifyTree {
            identify: self.identify,
            first,
            with: self.with,
            second,
            semicolon: self.semicolon,
        })
    }
}

impl Copied for ClusterTree {
    fn copy(&self, alloc: Global) -> Result<ClusterTree, AllocError> {
        match self {
            ClusterTree::Existential(part) => Ok(ClusterTree::Existential(part.copy(alloc)?)),
            ClusterTree::Conditional(part) => Ok(ClusterTree::Conditional(part.copy(alloc)?)),
            ClusterTree::Functorial(part) => Ok(ClusterTree::Functorial(part.copy(alloc)?)),
            ClusterTree::Reduce(part) => Ok(ClusterTree::Reduce(part.copy(alloc)?)),
            ClusterTree::Identify(part) => Ok(ClusterTree::Identify(part.copy(alloc)?)),
        }
    }
}
