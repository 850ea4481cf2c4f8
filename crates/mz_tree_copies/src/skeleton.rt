//! Steps of the skeleton: `let`, `assume`, `given`, `take`, and the beginning of a split into cases.
ghost use Rattle.std.specs.Prelude.{◌≡◌, IfOk};

use crate::tree::Copied;
use mz_tree_proof::skeleton::{
    AssumeTree, GivenTree, LetTree, SkeletonTree, SplitTree, TakeTree, TakenTree,
};
use std::alloc::{AllocError, Global};

impl Copied for LetTree {
    fn copy(&self, alloc: Global) -> Result<LetTree, AllocError> {
        let declarations = self.declarations.copy(alloc)?;
        let such = self.such.copy(alloc)?;
        Ok(LetTree {
            let_: self.let_,
            declarations,
            such,
            semicolon: self.semicolon,
        })
    }
}

impl Copied for AssumeTree {
    fn copy(&self, alloc: Global) -> Result<AssumeTree, AllocError> {
        let hypotheses = self.hypotheses.copy(alloc)?;
        Ok(AssumeTree {
            assume: self.assume,
            hypotheses,
            semicolon: self.semicolon,
        })
    }
}

impl Copied for GivenTree {
    fn copy(&self, alloc: Global) -> Result<GivenTree, AllocError> {
        let declarations = self.declarations.copy(alloc)?;
        let such = self.such.copy(alloc)?;
        Ok(GivenTree {
            given: self.given,
            declarations,
            such,
            semicolon: self.semicolon,
        })
    }
}

impl Copied for TakenTree {
    fn copy(&self, alloc: Global) -> Result<TakenTree, AllocError> {
        match self {
            TakenTree::Plain(term) => Ok(TakenTree::Plain(term.copy(alloc)?)),
            TakenTree::Named(named) => Ok(TakenTree::Named(named.copy(alloc)?)),
        }
    }
}

impl Copied for TakeTree {
    fn copy(&self, alloc: Global) -> Result<TakeTree, AllocError> {
        let taken = self.taken.copy(alloc)?;
        Ok(TakeTree {
            take: self.take,
            taken,
            semicolon: self.semicolon,
        })
    }
}

impl Copied for SkeletonTree {
    fn copy(&self, alloc: Global) -> Result<SkeletonTree, AllocError> {
        match self {
            SkeletonTree::Let(tree) => Ok(SkeletonTree::Let(tree.copy(alloc)?)),
            SkeletonTree::Assume(tree) => Ok(SkeletonTree::Assume(tree.copy(alloc)?)),
            SkeletonTree::Given(tree) => Ok(SkeletonTree::Given(tree.copy(alloc)?)),
            SkeletonTree::Take(tree) => Ok(SkeletonTree::Take(tree.copy(alloc)?)),
        }
    }
}

impl Copied for SplitTree {
    fn copy(&self, alloc: Global) -> Result<SplitTree, AllocError> {
        let simple = self.simple.copy(alloc)?;
        Ok(SplitTree {
            then: self.then,
            per: self.per,
            cases: self.cases,
            simple,
            semicolon: self.semicolon,
        })
    }
}
