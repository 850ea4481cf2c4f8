//! Labels, references and simple justifications.
ghost use Rattle.std.specs.Prelude.{◌≡◌, ◌++◌, IfOk};
ghost use Rattle.mz_tree_proof.specs.Spell.{spell_label, spell_number, spell_reference, spell_scheme_reference, spell_premises, spell_simple};

use crate::tree::Spell;
use mz_base::token::MarkedToken;
use mz_expression_spelling::emit::{emit_identifier, emit_numeral, emit_reserved, emit_special};
use mz_tree_proof::references::{
    LabelTree, NumberTree, PremisesTree, ReferenceTree, SchemeReferenceTree, SimpleTree,
};
use std::alloc::{AllocError, Global};

impl Spell for LabelTree {
    ghost spelled = { spell_label };

    fn spell(&self, alloc: Global, out: &mut Vec<MarkedToken>) -> Result<(), AllocError> {
        emit_identifier(alloc, out, &self.name)?;
        emit_special(alloc, out, self.colon, b":")
    }
}

impl Spell for NumberTree {
    ghost spelled = { spell_number };

    fn spell(&self, alloc: Global, out: &mut Vec<MarkedToken>) -> Result<(), AllocError> {
        match self {
            NumberTree::Theorem(number) => emit_numeral(alloc, out, number),
            NumberTree::Definition { def, number } => {
                emit_reserved(alloc, out, *def, b"def")?;
                emit_numeral(alloc, out, number)
            }
        }
    }
}

impl Spell for ReferenceTree {
    ghost spelled = { spell_reference };

    fn spell(&self, alloc: Global, out: &mut Vec<MarkedToken>) -> Result<(), AllocError> {
        match self {
            ReferenceTree::Label(name) => emit_identifier(alloc, out, name),
            ReferenceTree::Numbered {
                article,
                colon,
                numbers,
            } => {
                emit_identifier(alloc, out, article)?;
                emit_special(alloc, out, *colon, b":")?;
                numbers.spell(alloc, out)
            }
        }
    }
}

impl Spell for SchemeReferenceTree {
    ghost spelled = { spell_scheme_reference };

    fn spell(&self, alloc: Global, out: &mut Vec<MarkedToken>) -> Result<(), AllocError> {
        match self {
            SchemeReferenceTree::Label(name) => emit_identifier(alloc, out, name),
            SchemeReferenceTree::Numbered {
                article,
                colon,
                sch,
                number,
            } => {
                emit_identifier(alloc, out, article)?;
                emit_special(alloc, out, *colon, b":")?;
                emit_reserved(alloc, out, *sch, b"sch")?;
                emit_numeral(alloc, out, number)
            }
        }
    }
}

impl Spell for PremisesTree {
    ghost spelled = { spell_premises };

    fn spell(&self, alloc: Global, out: &mut Vec<MarkedToken>) -> Result<(), AllocError> {
        emit_special(alloc, out, self.left, b"(")?;
        self.references.spell(alloc, out)?;
        emit_special(alloc, out, self.right, b")")
    }
}

impl Spell for SimpleTree {
    ghost spelled = { spell_simple };

    fn spell(&self, alloc: Global, out: &mut Vec<MarkedToken>) -> Result<(), AllocError> {
        match self {
            SimpleTree::Nothing => Ok(()),
            SimpleTree::By { by, references } => {
                emit_reserved(alloc, out, *by, b"by")?;
                references.spell(alloc, out)
            }
            SimpleTree::From {
                from,
                scheme,
                premises,
            } => {
                emit_reserved(alloc, out, *from, b"from")?;
                scheme.spell(alloc, out)?;
                premises.spell(alloc, out)
            }
        }
    }
}
