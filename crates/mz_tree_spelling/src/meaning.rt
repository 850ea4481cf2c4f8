//! Definientia, with cases or without.
ghost use Rattle.std.specs.Prelude.{◌≡◌, ◌++◌, IfOk};
ghost use Rattle.mz_tree_heading.specs.Spell.{spell_definition_label, spell_case, spell_otherwise, spell_cases, spell_meaning};

use crate::tree::Spell;
use mz_base::token::MarkedToken;
use mz_expression_spelling::emit::{emit_identifier, emit_reserved, emit_special};
use mz_tree_heading::meaning::{
    CaseTree, CasesTree, DefinitionLabelTree, MeaningTree, OtherwiseTree,
};
use std::alloc::{AllocError, Global};

impl Spell for DefinitionLabelTree {
    ghost spelled = { spell_definition_label };

    fn spell(&self, alloc: Global, out: &mut Vec<MarkedToken>) -> Result<(), AllocError> {
        emit_special(alloc, out, self.left, b":")?;
        emit_identifier(alloc, out, &self.name)?;
        emit_special(alloc, out, self.right, b":")
    }
}

impl<B: Spell> Spell for CaseTree<B> {
    ghost spelled = { spell_case B.spelled };

    fn spell(&self, alloc: Global, out: &mut Vec<MarkedToken>) -> Result<(), AllocError> {
        self.body.spell(alloc, out)?;
        emit_reserved(alloc, out, self.if_, b"if")?;
        self.condition.spell(alloc, out)
    }
}

impl<B: Spell> Spell for OtherwiseTree<B> {
    ghost spelled = { spell_otherwise B.spelled };

    fn spell(&self, alloc: Global, out: &mut Vec<MarkedToken>) -> Result<(), AllocError> {
        emit_reserved(alloc, out, self.otherwise, b"otherwise")?;
        self.body.spell(alloc, out)
    }
}

impl<B: Spell> Spell for CasesTree<B> {
    ghost spelled = { spell_cases B.spelled };

    fn spell(&self, alloc: Global, out: &mut Vec<MarkedToken>) -> Result<(), AllocError> {
        match self {
            CasesTree::Plain(body) => body.spell(alloc, out),
            CasesTree::Cases { cases, otherwise } => {
                cases.spell(alloc, out)?;
                otherwise.spell(alloc, out)
            }
        }
    }
}

impl Spell for MeaningTree {
    ghost spelled = { spell_meaning };

    fn spell(&self, alloc: Global, out: &mut Vec<MarkedToken>) -> Result<(), AllocError> {
        match self {
            MeaningTree::Means {
                means,
                label,
                cases,
            } => {
                emit_reserved(alloc, out, *means, b"means")?;
                label.spell(alloc, out)?;
                cases.spell(alloc, out)
            }
            MeaningTree::Equals {
                equals,
                label,
                cases,
            } => {
                emit_reserved(alloc, out, *equals, b"equals")?;
                label.spell(alloc, out)?;
                cases.spell(alloc, out)
            }
        }
    }
}
