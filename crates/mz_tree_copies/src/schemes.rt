//! Theorems and schemes.
ghost use Rattle.std.specs.Prelude.{◌≡◌, IfOk};

use crate::pairs::copied_triple;
use crate::tree::Copied;
use mz_tree_item::schemes::{ProvidedTree, SchemeTree, TheoremTree};
use std::alloc::{AllocError, Global};

impl Copied for ProvidedTree {
    fn copy(&self, alloc: Global) -> Result<ProvidedTree, AllocError> {
        let propositions = self.propositions.copy(alloc)?;
        Ok(ProvidedTree {
            provided: self.provided,
            propositions,
        })
    }
}

impl Copied for SchemeTree {
    fn copy(&self, alloc: Global) -> Result<SchemeTree, AllocError> {
        let name = self.name.copy(alloc)?;
        let just = self.just.copy(alloc)?;
        let (parameters, formula, provided) = copied_triple(
            alloc,
            &self.parameters,
            &self.formula,
            &self.provided,
        )?;
        Ok(SchemeTree {
            scheme: self.scheme,
            name,
            left: self.left,
            parameters,
            right: self.right,
            colon: self.colon,
            formula,
            provided,
            just,
            semicolon: self.semicolon,
        })
    }
}

impl Copied for TheoremTree {
    fn copy(&self, alloc: Global) -> Result<TheoremTree, AllocError> {
        let just = self.just.copy(alloc)?;
        let proposition = self.proposition.copy(alloc)?;
        Ok(TheoremTree {
            theorem: self.theorem,
            proposition,
            just,
            semicolon: self.semicolon,
        })
    }
}
