//! The trees of expressions: terms, types, adjectives, declarations and formulas.
ghost use Rattle.std.specs.Prelude.{◌≡◌, IfOk};

use crate::tree::Copied;
use mz_expression_copies::nodes::{
    boxed_formula, boxed_type, copy_adjective, copy_adjectives, copy_declarations, copy_term,
    copy_terms,
};
use mz_tree::expressions::{
    AdjectivesTree, DeclarationsTree, FormulaTree, TermTree, TermsTree, TypeTree,
};
use std::alloc::{AllocError, Global};

impl Copied for TermTree {
    fn copy(&self, alloc: Global) -> Result<TermTree, AllocError> {
        let node = copy_term(alloc, &self.node)?;
        Ok(TermTree { node })
    }
}

impl Copied for TermsTree {
    fn copy(&self, alloc: Global) -> Result<TermsTree, AllocError> {
        let node = copy_terms(alloc, &self.node)?;
        Ok(TermsTree { node })
    }
}

impl Copied for TypeTree {
    fn copy(&self, alloc: Global) -> Result<TypeTree, AllocError> {
        let node = boxed_type(alloc, &self.node)?;
        Ok(TypeTree { node })
    }
}

impl Copied for AdjectivesTree {
    fn copy(&self, alloc: Global) -> Result<AdjectivesTree, AllocError> {
        let more = copy_adjectives(alloc, &self.more)?;
        let first = copy_adjective(alloc, &self.first)?;
        Ok(AdjectivesTree { first, more })
    }
}

impl Copied for DeclarationsTree {
    fn copy(&self, alloc: Global) -> Result<DeclarationsTree, AllocError> {
        let node = copy_declarations(alloc, &self.node)?;
        Ok(DeclarationsTree { node })
    }
}

impl Copied for FormulaTree {
    fn copy(&self, alloc: Global) -> Result<FormulaTree, AllocError> {
        let node = boxed_formula(alloc, &self.node)?;
        Ok(FormulaTree { node })
    }
}
