//! Labels, references and simple justifications.
ghost use Rattle.std.specs.Prelude.{◌≡◌, IfOk};

use crate::tree::Copied;
use mz_tree_proof::references::{
    LabelTree, NumberTree, PremisesTree, ReferenceTree, SchemeReferenceTree, SimpleTree,
};
use std::alloc::{AllocError, Global};

impl Copied for LabelTree {
    fn copy(&self, alloc: Global) -> Result<LabelTree, AllocError> {
        let name = self.name.copy(alloc)?;
        Ok(LabelTree {
            name,
            colon: self.colon,
        })
    }
}

impl Copied for NumberTree {
    fn copy(&self, alloc: Global) -> Result<NumberTree, AllocError> {
        match self {
            NumberTree::Theorem(number) => Ok(NumberTree::Theorem(number.copy(alloc)?)),
            NumberTree::Definition { def, number } => {
                let number = number.copy(alloc)?;
                Ok(NumberTree::Definition { def: *def, number })
            }
        }
    }
}

impl Copied for ReferenceTree {
    fn copy(&self, alloc: Global) -> Result<ReferenceTree, AllocError> {
        match self {
            ReferenceTree::Label(name) => Ok(ReferenceTree::Label(name.copy(alloc)?)),
            ReferenceTree::Numbered {
                article,
                colon,
                numbers,
            } => {
                let article = article.copy(alloc)?;
                let numbers = numbers.copy(alloc)?;
                Ok(ReferenceTree::Numbered {
                    article,
                    colon: *colon,
                    numbers,
                })
            }
        }
    }
}

impl Copied for SchemeReferenceTree {
    fn copy(&self, alloc: Global) -> Result<SchemeReferenceTree, AllocError> {
        match self {
            SchemeReferenceTree::Label(name) => Ok(SchemeReferenceTree::Label(name.copy(alloc)?)),
            SchemeReferenceTree::Numbered {
                article,
                colon,
                sch,
                number,
            } => {
                let article = article.copy(alloc)?;
                let number = number.copy(alloc)?;
                Ok(SchemeReferenceTree::Numbered {
                    article,
                    colon: *colon,
                    sch: *sch,
                    number,
                })
            }
        }
    }
}

impl Copied for PremisesTree {
    fn copy(&self, alloc: Global) -> Result<PremisesTree, AllocError> {
        let references = self.references.copy(alloc)?;
        Ok(PremisesTree {
            left: self.left,
            references,
            right: self.right,
        })
    }
}

impl Copied for SimpleTree {
    fn copy(&self, alloc: Global) -> Result<SimpleTree, AllocError> {
        match self {
            SimpleTree::Nothing => Ok(SimpleTree::Nothing),
            SimpleTree::By { by, references } => {
                let references = references.copy(alloc)?;
                Ok(SimpleTree::By {
                    by: *by,
                    references,
                })
            }
            SimpleTree::From {
                from,
                scheme,
                premises,
            } => {
                let scheme = scheme.copy(alloc)?;
                let premises = premises.copy(alloc)?;
                Ok(SimpleTree::From {
                    from: *from,
                    scheme,
                    premises,
                })
            }
        }
    }
}
