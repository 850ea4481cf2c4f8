//! The further sides of an iterative equality.
ghost use Rattle.std.specs.Prelude.{◌≡◌, ◌++◌, IfOk};
ghost use Rattle.mz_tree_proof.specs.Spell.{spell_equality_step};

use crate::tree::Spell;
use mz_base::token::MarkedToken;
use mz_expression_spelling::emit::emit_special;
use mz_tree_proof::equality_step::EqualityStepTree;
use std::alloc::{AllocError, Global};

impl Spell for EqualityStepTree {
    ghost spelled = { spell_equality_step };

    fn spell(&self, alloc: Global, out: &mut Vec<MarkedToken>) -> Result<(), AllocError> {
        emit_special(alloc, out, self.sign, b".=")?;
        self.term.spell(alloc, out)?;
        self.simple.spell(alloc, out)
    }
}
