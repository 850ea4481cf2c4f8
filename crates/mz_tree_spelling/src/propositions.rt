//! Propositions, hypotheses and conditions.
ghost use Rattle.std.specs.Prelude.{◌≡◌, ◌++◌, IfOk};
ghost use Rattle.mz_tree_proof.specs.Spell.{spell_proposition, spell_and_proposition, spell_propositions, spell_hypotheses, spell_such};

use crate::tree::Spell;
use mz_base::token::MarkedToken;
use mz_expression_spelling::emit::emit_reserved;
use mz_tree_proof::propositions::{
    AndPropositionTree, HypothesesTree, PropositionTree, PropositionsTree, SuchTree,
};
use std::alloc::{AllocError, Global};

impl Spell for PropositionTree {
    ghost spelled = { spell_proposition };

    fn spell(&self, alloc: Global, out: &mut Vec<MarkedToken>) -> Result<(), AllocError> {
        self.label.spell(alloc, out)?;
        self.formula.spell(alloc, out)
    }
}

impl Spell for AndPropositionTree {
    ghost spelled = { spell_and_proposition };

    fn spell(&self, alloc: Global, out: &mut Vec<MarkedToken>) -> Result<(), AllocError> {
        emit_reserved(alloc, out, self.and, b"and")?;
        self.proposition.spell(alloc, out)
    }
}

impl Spell for PropositionsTree {
    ghost spelled = { spell_propositions };

    fn spell(&self, alloc: Global, out: &mut Vec<MarkedToken>) -> Result<(), AllocError> {
        self.first.spell(alloc, out)?;
        self.more.spell(alloc, out)
    }
}

impl Spell for HypothesesTree {
    ghost spelled = { spell_hypotheses };

    fn spell(&self, alloc: Global, out: &mut Vec<MarkedToken>) -> Result<(), AllocError> {
        match self {
            HypothesesTree::One(proposition) => proposition.spell(alloc, out),
            HypothesesTree::That { that, propositions } => {
                emit_reserved(alloc, out, *that, b"that")?;
                propositions.spell(alloc, out)
            }
        }
    }
}

impl Spell for SuchTree {
    ghost spelled = { spell_such };

    fn spell(&self, alloc: Global, out: &mut Vec<MarkedToken>) -> Result<(), AllocError> {
        emit_reserved(alloc, out, self.such, b"such")?;
        emit_reserved(alloc, out, self.that, b"that")?;
        self.propositions.spell(alloc, out)
    }
}
