//! Directives.
ghost use Rattle.std.specs.Prelude.{◌≡◌, ◌++◌, IfOk};
ghost use Rattle.mz_tree_part.specs.Spell.{spell_directive};

use crate::tree::Spell;
use mz_base::token::MarkedToken;
use mz_expression_spelling::emit::{emit_reserved, emit_special};
use mz_tree_part::directive::DirectiveTree;
use std::alloc::{AllocError, Global};

impl Spell for DirectiveTree {
    ghost spelled = { spell_directive };

    fn spell(&self, alloc: Global, out: &mut Vec<MarkedToken>) -> Result<(), AllocError> {
        emit_reserved(alloc, out, self.place, self.word.spelling())?;
        self.names.spell(alloc, out)?;
        emit_special(alloc, out, self.semicolon, b";")
    }
}
