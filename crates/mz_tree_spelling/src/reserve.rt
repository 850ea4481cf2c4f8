//! Reservations.
ghost use Rattle.std.specs.Prelude.{◌≡◌, ◌++◌, IfOk};
ghost use Rattle.mz_tree_part.specs.Spell.{spell_segment, spell_reserve};

use crate::tree::Spell;
use mz_base::token::MarkedToken;
use mz_expression_spelling::emit::{emit_reserved, emit_special};
use mz_tree_part::reserve::{ReserveTree, SegmentTree};
use std::alloc::{AllocError, Global};

impl Spell for SegmentTree {
    ghost spelled = { spell_segment };

    fn spell(&self, alloc: Global, out: &mut Vec<MarkedToken>) -> Result<(), AllocError> {
        self.identifiers.spell(alloc, out)?;
        emit_reserved(alloc, out, self.for_, b"for")?;
        self.ty.spell(alloc, out)
    }
}

impl Spell for ReserveTree {
    ghost spelled = { spell_reserve };

    fn spell(&self, alloc: Global, out: &mut Vec<MarkedToken>) -> Result<(), AllocError> {
        emit_reserved(alloc, out, self.reserve, b"reserve")?;
        self.segments.spell(alloc, out)?;
        emit_special(alloc, out, self.semicolon, b";")
    }
}
