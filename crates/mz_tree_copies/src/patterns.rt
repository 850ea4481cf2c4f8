//! Patterns and their loci.
ghost use Rattle.std.specs.Prelude.{◌≡◌, IfOk};

use crate::pairs::copied_pair;
use crate::tree::Copied;
use mz_tree_heading::patterns::{
    AttributePatternTree, FunctorPatternTree, IdentifierTree, LociTree, ModeLociTree,
    ModePatternTree, PatternTree, PredicatePatternTree, SymbolPatternTree,
};
use std::alloc::{AllocError, Global};

impl Copied for IdentifierTree {
    fn copy(&self, alloc: Global) -> Result<IdentifierTree, AllocError> {
        let name = self.name.copy(alloc)?;
        Ok(IdentifierTree { name })
    }
}

impl Copied for LociTree {
    fn copy(&self, alloc: Global) -> Result<LociTree, AllocError> {
        match self {
            LociTree::One(part) => Ok(LociTree::One(part.copy(alloc)?)),
            LociTree::Several {
                left,
                identifiers,
                right,
            } => {
                let identifiers = identifiers.copy(alloc)?;
                Ok(LociTree::Several {
                    left: *left,
                    identifiers,
                    right: *right,
                })
            }
        }
    }
}

impl Copied for ModeLociTree {
    fn copy(&self, alloc: Global) -> Result<ModeLociTree, AllocError> {
        let identifiers = self.identifiers.copy(alloc)?;
        Ok(ModeLociTree {
            of: self.of,
            identifiers,
        })
    }
}

impl Copied for FunctorPatternTree {
    fn copy(&self, alloc: Global) -> Result<FunctorPatternTree, AllocError> {
        match self {
            FunctorPatternTree::Symbol(part) => Ok(FunctorPatternTree::Symbol(part.copy(alloc)?)),
            FunctorPatternTree::Brackets {
                left,
                identifiers,
                right,
            } => {
                let left = left.copy(alloc)?;
                let right = right.copy(alloc)?;
                let identifiers = identifiers.copy(alloc)?;
                Ok(FunctorPatternTree::Brackets {
                    left,
                    identifiers,
                    right,
                })
            }
            FunctorPatternTree::Braces {
                left,
                identifiers,
                right,
            } => {
                let identifiers = identifiers.copy(alloc)?;
                Ok(FunctorPatternTree::Braces {
                    left: *left,
                    identifiers,
                    right: *right,
                })
            }
            FunctorPatternTree::Squares {
                left,
                identifiers,
                right,
            } => {
                let identifiers = identifiers.copy(alloc)?;
                Ok(FunctorPatternTree::Squares {
                    left: *left,
                    identifiers,
                    right: *right,
                })
            }
        }
    }
}

impl Copied for PredicatePatternTree {
    fn copy(&self, alloc: Global) -> Result<PredicatePatternTree, AllocError> {
        let symbol = self.symbol.copy(alloc)?;
        let (left, right) = copied_pair(alloc, &self.left, &self.right)?;
        Ok(PredicatePatternTree {
            left,
            symbol,
            right,
        })
    }
}

impl Copied for AttributePatternTree {
    fn copy(&self, alloc: Global) -> Result<AttributePatternTree, AllocError> {
        let subject = self.subject.copy(alloc)?;
        let symbol = self.symbol.copy(alloc)?;
        let loci = self.loci.copy(alloc)?;
        Ok(AttributePatternTree {
            subject,
            is: self.is,
            loci,
            symbol,
        })
    }
}

impl Copied for SymbolPatternTree {
    fn copy(&self, alloc: Global) -> Result<SymbolPatternTree, AllocError> {
        let symbol = self.symbol.copy(alloc)?;
        let (left, right) = copied_pair(alloc, &self.left, &self.right)?;
        Ok(SymbolPatternTree {
            left,
            symbol,
            priority: self.priority,
            right,
        })
    }
}

impl Copied for ModePatternTree {
    fn copy(&self, alloc: Global) -> Result<ModePatternTree, AllocError> {
        let symbol = self.symbol.copy(alloc)?;
        let loci = self.loci.copy(alloc)?;
        Ok(ModePatternTree { symbol, loci })
    }
}

impl Copied for PatternTree {
    fn copy(&self, alloc: Global) -> Result<PatternTree, AllocError> {
        match self {
            PatternTree::Functor(part) => Ok(PatternTree::Functor(part.copy(alloc)?)),
            PatternTree::Predicate(part) => Ok(PatternTree::Predicate(part.copy(alloc)?)),
            PatternTree::Attribute(part) => Ok(PatternTree::Attribute(part.copy(alloc)?)),
            PatternTree::Mode(part) => Ok(PatternTree::Mode(part.copy(alloc)?)),
        }
    }
}
