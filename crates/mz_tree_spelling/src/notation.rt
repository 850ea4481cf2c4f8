//! Notations: synonyms and antonyms, and the loci of blocks.
ghost use Rattle.std.specs.Prelude.{◌≡◌, ◌++◌, IfOk};
ghost use Rattle.mz_tree_part.specs.Spell.{spell_block_let, spell_notation, spell_notation_part};

use crate::tree::Spell;
use mz_base::token::MarkedToken;
use mz_expression_spelling::emit::{emit_reserved, emit_special};
use mz_tree_part::notation::{BlockLetTree, NotationPartTree, NotationTree};
use std::alloc::{AllocError, Global};

impl Spell for BlockLetTree {
    ghost spelled = { spell_block_let };

    fn spell(&self, alloc: Global, out: &mut Vec<MarkedToken>) -> Result<(), AllocError> {
        emit_reserved(alloc, out, self.let_, b"let")?;
        self.declarations.spell(alloc, out)?;
        emit_special(alloc, out, self.semicolon, b";")
    }
}

impl Spell for NotationPartTree {
    ghost spelled = { spell_notation_part };

    fn spell(&self, alloc: Global, out: &mut Vec<MarkedToken>) -> Result<(), AllocError> {
        match self {
            NotationPartTree::Let(loci) => loci.spell(alloc, out),
            NotationPartTree::Notation {
                place,
                word,
                first,
                for_,
                second,
                semicolon,
            } => {
                emit_reserved(alloc, out, *place, word.spelling())?;
                first.spell(alloc, out)?;
                emit_reserved(alloc, out, *for_, b"for")?;
                second.spell(alloc, out)?;
                emit_special(alloc, out, *semicolon, b";")
            }
        }
    }
}

impl Spell for NotationTree {
    ghost spelled = { spell_notation };

    fn spell(&self, alloc: Global, out: &mut Vec<MarkedToken>) -> Result<(), AllocError> {
        emit_reserved(alloc, out, self.notation, b"notation")?;
        self.parts.spell(alloc, out)?;
        emit_reserved(alloc, out, self.end, b"end")?;
        emit_special(alloc, out, self.semicolon, b";")
    }
}
