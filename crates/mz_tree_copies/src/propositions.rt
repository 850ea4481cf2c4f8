//! Propositions, hypotheses and conditions.
ghost use Rattle.std.specs.Prelude.{◌≡◌, IfOk};

use crate::tree::Copied;
use mz_tree_proof::propositions::{
    AndPropositionTree, HypothesesTree, PropositionTree, PropositionsTree, SuchTree,
};
use std::alloc::{AllocError, Global};

impl Copied for PropositionTree {
    fn copy(&self, alloc: Global) -> Result<PropositionTree, AllocError> {
        let label = self.label.copy(alloc)?;
        let formula = self.formula.copy(alloc)?;
        Ok(PropositionTree { label, formula })
    }
}

impl Copied for AndPropositionTree {
    fn copy(&self, alloc: Global) -> Result<AndPropositionTree, AllocError> {
        let proposition = self.proposition.copy(alloc)?;
        Ok(AndPropositionTree {
            and: self.and,
            proposition,
        })
    }
}

impl Copied for PropositionsTree {
    fn copy(&self, alloc: Global) -> Result<PropositionsTree, AllocError> {
        let more = self.more.copy(alloc)?;
        let first = self.first.copy(alloc)?;
        Ok(PropositionsTree { first, more })
    }
}

impl Copied for HypothesesTree {
    fn copy(&self, alloc: Global) -> Result<HypothesesTree, AllocError> {
        match self {
            HypothesesTree::One(proposition) => Ok(HypothesesTree::One(proposition.copy(alloc)?)),
            HypothesesTree::That { that, propositions } => {
                let propositions = propositions.copy(alloc)?;
                Ok(HypothesesTree::That {
                    that: *that,
                    propositions,
                })
            }
        }
    }
}

impl Copied for SuchTree {
    fn copy(&self, alloc: Global) -> Result<SuchTree, AllocError> {
        let propositions = self.propositions.copy(alloc)?;
        Ok(SuchTree {
            such: self.such,
            that: self.that,
            propositions,
        })
    }
}
