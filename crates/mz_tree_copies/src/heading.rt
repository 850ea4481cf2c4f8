//! Headings of definitions.
ghost use Rattle.std.specs.Prelude.{◌≡◌, IfOk};

use crate::pairs::{copied_pair, copied_triple};
use crate::tree::Copied;
use mz_tree_heading::heading::{
    AbbreviationTree, AttributeHeadingTree, FunctorHeadingTree, HeadingTree, ModeHeadingTree,
    PredicateHeadingTree, ResultTree,
};
use std::alloc::{AllocError, Global};

impl Copied for ResultTree {
    fn copy(&self, alloc: Global) -> Result<ResultTree, AllocError> {
        let ty = self.ty.copy(alloc)?;
        Ok(ResultTree {
            arrow: self.arrow,
            ty,
        })
    }
}

impl<M: Copied> Copied for FunctorHeadingTree<M> {
    fn copy(&self, alloc: Global) -> Result<FunctorHeadingTree<M>, AllocError> {
        let (pattern, result, meaning) = copied_triple(
            alloc,
            &self.pattern,
            &self.result,
            &self.meaning,
        )?;
        Ok(FunctorHeadingTree {
            func: self.func,
            pattern,
            result,
            meaning,
            semicolon: self.semicolon,
        })
    }
}

impl<M: Copied> Copied for PredicateHeadingTree<M> {
    fn copy(&self, alloc: Global) -> Result<PredicateHeadingTree<M>, AllocError> {
        let (pattern, meaning) = copied_pair(alloc, &self.pattern, &self.meaning)?;
        Ok(PredicateHeadingTree {
            pred: self.pred,
            pattern,
            meaning,
            semicolon: self.semicolon,
        })
    }
}

impl<M: Copied> Copied for AttributeHeadingTree<M> {
    fn copy(&self, alloc: Global) -> Result<AttributeHeadingTree<M>, AllocError> {
        let (pattern, meaning) = copied_pair(alloc, &self.pattern, &self.meaning)?;
        Ok(AttributeHeadingTree {
            attr: self.attr,
            pattern,
            meaning,
            semicolon: self.semicolon,
        })
    }
}

impl<M: Copied> Copied for ModeHeadingTree<M> {
    fn copy(&self, alloc: Global) -> Result<ModeHeadingTree<M>, AllocError> {
        let (pattern, result, meaning) = copied_triple(
            alloc,
            &self.pattern,
            &self.result,
            &self.meaning,
        )?;
        Ok(ModeHeadingTree {
            mode: self.mode,
            pattern,
            result,
            meaning,
            semicolon: self.semicolon,
        })
    }
}

impl Copied for AbbreviationTree {
    fn copy(&self, alloc: Global) -> Result<AbbreviationTree, AllocError> {
        let (pattern, ty) = copied_pair(alloc, &self.pattern, &self.ty)?;
        Ok(AbbreviationTree {
            mode: self.mode,
            pattern,
            is: self.is,
            ty,
            semicolon: self.semicolon,
        })
    }
}

impl Copied for HeadingTree {
    fn copy(&self, alloc: Global) -> Result<HeadingTree, AllocError> {
        match self {
            HeadingTree::Functor(part) => Ok(HeadingTree::Functor(part.copy(alloc)?)),
            HeadingTree::Predicate(part) => Ok(HeadingTree::Predicate(part.copy(alloc)?)),
            HeadingTree::Attribute(part) => Ok(HeadingTree::Attribute(part.copy(alloc)?)),
            HeadingTree::Mode(part) => Ok(HeadingTree::Mode(part.copy(alloc)?)),
            HeadingTree::Abbreviation(part) => Ok(HeadingTree::Abbreviation(part.copy(alloc)?)),
            HeadingTree::Structure(part) => Ok(HeadingTree::Structure(part.copy(alloc)?)),
            HeadingTree::RedefinedFunctor { redefine, heading } => {
                let heading = heading.copy(alloc)?;
                Ok(HeadingTree::RedefinedFunctor {
                    redefine: *redefine,
                    heading,
                })
            }
            HeadingTree::RedefinedPredicate { redefine, heading } => {
                let heading = heading.copy(alloc)?;
                Ok(HeadingTree::RedefinedPredicate {
                    redefine: *redefine,
                    heading,
                })
            }
            HeadingTree::RedefinedAttribute { redefine, heading } => {
                let heading = heading.copy(alloc)?;
                Ok(HeadingTree::RedefinedAttribute {
                    redefine: *redefine,
                    heading,
                })
            }
            HeadingTree::RedefinedMode { redefine, heading } => {
                let heading = heading.copy(alloc)?;
                Ok(HeadingTree::RedefinedMode {
                    redefine: *redefine,
                    heading,
                })
            }
        }
    }
}
