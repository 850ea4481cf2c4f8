//! Statements that introduce names: `consider`, `reconsider`, `set`, `deffunc` and `defpred`.
ghost use Rattle.std.specs.Prelude.{◌≡◌, IfOk};

use crate::tree::Copied;
use mz_tree_proof::introduction::{
    ConsiderTree, DeffuncTree, DefpredTree, IntroductionTree, NamedTermTree, ReconsiderTree,
    RetypedTree, SetTree,
};
use std::alloc::{AllocError, Global};

impl Copied for NamedTermTree {
    fn copy(&self, alloc: Global) -> Result<NamedTermTree, AllocError> {
        let name = self.name.copy(alloc)?;
        let term = self.term.copy(alloc)?;
        Ok(NamedTermTree {
            name,
            equals: self.equals,
            term,
        })
    }
}

impl Copied for RetypedTree {
    fn copy(&self, alloc: Global) -> Result<RetypedTree, AllocError> {
        match self {
            RetypedTree::Itself(name) => Ok(RetypedTree::Itself(name.copy(alloc)?)),
            RetypedTree::Named(named) => Ok(RetypedTree::Named(named.copy(alloc)?)),
        }
    }
}

impl Copied for ConsiderTree {
    fn copy(&self, alloc: Global) -> Result<ConsiderTree, AllocError> {
        let declarations = self.declarations.copy(alloc)?;
        let simple = self.simple.copy(alloc)?;
        let such = self.such.copy(alloc)?;
        Ok(ConsiderTree {
            then: self.then,
            consider: self.consider,
            declarations,
            such,
            simple,
            semicolon: self.semicolon,
        })
    }
}

impl Copied for ReconsiderTree {
    fn copy(&self, alloc: Global) -> Result<ReconsiderTree, AllocError> {
        let retyped = self.retyped.copy(alloc)?;
        let ty = self.ty.copy(alloc)?;
        let simple = self.simple.copy(alloc)?;
        Ok(ReconsiderTree {
            then: self.then,
            reconsider: self.reconsider,
            retyped,
            as_: self.as_,
            ty,
            simple,
            semicolon: self.semicolon,
        })
    }
}

impl Copied for SetTree {
    fn copy(&self, alloc: Global) -> Result<SetTree, AllocError> {
        let named = self.named.copy(alloc)?;
        Ok(SetTree {
            set: self.set,
            named,
            semicolon: self.semicolon,
        })
    }
}

impl Copied for DeffuncTree {
    fn copy(&self, alloc: Global) -> Result<DeffuncTree, AllocError> {
        let name = self.name.copy(alloc)?;
        let term = self.term.copy(alloc)?;
        let types = self.types.copy(alloc)?;
        Ok(DeffuncTree {
            deffunc: self.deffunc,
            name,
            left: self.left,
            types,
            right: self.right,
            equals: self.equals,
            term,
            semicolon: self.semicolon,
        })
    }
}

impl Copied for DefpredTree {
    fn copy(&self, alloc: Global) -> Result<DefpredTree, AllocError> {
        let name = self.name.copy(alloc)?;
        let types = self.types.copy(alloc)?;
        let formula = self.formula.copy(alloc)?;
        Ok(DefpredTree {
            defpred: self.defpred,
            name,
            left: self.left,
            types,
            right: self.right,
            means: self.means,
            formula,
            semicolon: self.semicolon,
        })
    }
}

impl Copied for IntroductionTree {
    fn copy(&self, alloc: Global) -> Result<IntroductionTree, AllocError> {
        match self {
            IntroductionTree::Consider(tree) => Ok(IntroductionTree::Consider(tree.copy(alloc)?)),
            IntroductionTree::Reconsider(tree) => Ok(IntroductionTree::Reconsider(tree.copy(
                alloc,
            )?)),
            IntroductionTree::Set(tree) => Ok(IntroductionTree::Set(tree.copy(alloc)?)),
            IntroductionTree::Deffunc(tree) => Ok(IntroductionTree::Deffunc(tree.copy(alloc)?)),
            IntroductionTree::Defpred(tree) => Ok(IntroductionTree::Defpred(tree.copy(alloc)?)),
        }
    }
}
