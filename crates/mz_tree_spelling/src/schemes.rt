//! Theorems and schemes.
ghost use Rattle.std.specs.Prelude.{◌≡◌, ◌++◌, IfOk};
ghost use Rattle.mz_tree_item.specs.Spell.{spell_provided, spell_scheme, spell_theorem};

use crate::tree::Spell;
use mz_base::token::MarkedToken;
use mz_expression_spelling::emit::{emit_identifier, emit_reserved, emit_special};
use mz_tree_item::schemes::{ProvidedTree, SchemeTree, TheoremTree};
use std::alloc::{AllocError, Global};

impl Spell for ProvidedTree {
    ghost spelled = { spell_provided };

    fn spell(&self, alloc: Global, out: &mut Vec<MarkedToken>) -> Result<(), AllocError> {
        emit_reserved(alloc, out, self.provided, b"provided")?;
        self.propositions.spell(alloc, out)
    }
}

impl Spell for SchemeTree {
    ghost spelled = { spell_scheme };

    fn spell(&self, alloc: Global, out: &mut Vec<MarkedToken>) -> Result<(), AllocError> {
        emit_reserved(alloc, out, self.scheme, b"scheme")?;
        emit_identifier(alloc, out, &self.name)?;
        emit_special(alloc, out, self.left, b"{")?;
        self.parameters.spell(alloc, out)?;
        emit_special(alloc, out, self.right, b"}")?;
        emit_special(alloc, out, self.colon, b":")?;
        self.formula.spell(alloc, out)?;
        self.provided.spell(alloc, out)?;
        self.just.spell(alloc, out)?;
        emit_special(alloc, out, self.semicolon, b";")
    }
}

impl Spell for TheoremTree {
    ghost spelled = { spell_theorem };

    fn spell(&self, alloc: Global, out: &mut Vec<MarkedToken>) -> Result<(), AllocError> {
        emit_reserved(alloc, out, self.theorem, b"theorem")?;
        self.proposition.spell(alloc, out)?;
        self.just.spell(alloc, out)?;
        emit_special(alloc, out, self.semicolon, b";")
    }
}
