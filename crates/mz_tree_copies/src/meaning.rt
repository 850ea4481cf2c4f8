//! Definientia, with cases or without.
ghost use Rattle.std.specs.Prelude.{◌≡◌, IfOk};

use crate::pairs::copied_pair;
use crate::tree::Copied;
use mz_tree_heading::meaning::{
    CaseTree, CasesTree, DefinitionLabelTree, MeaningTree, OtherwiseTree,
};
use std::alloc::{AllocError, Global};

impl Copied for DefinitionLabelTree {
    fn copy(&self, alloc: Global) -> Result<DefinitionLabelTree, AllocError> {
        let name = self.name.copy(alloc)?;
        Ok(DefinitionLabelTree {
            left: self.left,
            name,
            right: self.right,
        })
    }
}

impl<B: Copied> Copied for CaseTree<B> {
    fn copy(&self, alloc: Global) -> Result<CaseTree<B>, AllocError> {
        let (body, condition) = copied_pair(alloc, &self.body, &self.condition)?;
        Ok(CaseTree {
            body,
            if_: self.if_,
            condition,
        })
    }
}

impl<B: Copied> Copied for OtherwiseTree<B> {
    fn copy(&self, alloc: Global) -> Result<OtherwiseTree<B>, AllocError> {
        let body = self.body.copy(alloc)?;
        Ok(OtherwiseTree {
            otherwise: self.otherwise,
            body,
        })
    }
}

impl<B: Copied> Copied for CasesTree<B> {
    fn copy(&self, alloc: Global) -> Result<CasesTree<B>, AllocError> {
        match self {
            CasesTree::Plain(part) => Ok(CasesTree::Plain(part.copy(alloc)?)),
            CasesTree::Cases { cases, otherwise } => {
                let (cases, otherwise) = copied_pair(alloc, cases, otherwise)?;
                Ok(CasesTree::Cases { cases, otherwise })
            }
        }
    }
}

impl Copied for MeaningTree {
    fn copy(&self, alloc: Global) -> Result<MeaningTree, AllocError> {
        match self {
            MeaningTree::Means {
                means,
                label,
                cases,
            } => {
                let (label, cases) = copied_pair(alloc, label, cases)?;
                Ok(MeaningTree::Means {
                    means: *means,
                    label,
                    cases,
                })
            }
            MeaningTree::Equals {
                equals,
                label,
                cases,
            } => {
                let (label, cases) = copied_pair(alloc, label, cases)?;
                Ok(MeaningTree::Equals {
                    equals: *equals,
                    label,
                    cases,
                })
            }
        }
    }
}
