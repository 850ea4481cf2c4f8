//! Structures: their loci, ancestors and fields.
ghost use Rattle.std.specs.Prelude.{◌≡◌, ◌++◌, IfOk};
ghost use Rattle.mz_tree_heading.specs.Spell.{spell_selector, spell_field, spell_structure_loci, spell_ancestors, spell_structure};

use crate::tree::Spell;
use mz_base::symbol_kind::SymbolKind;
use mz_base::token::MarkedToken;
use mz_expression_spelling::emit::{emit_reserved, emit_special, emit_symbol};
use mz_tree_heading::structure::{
    AncestorsTree, FieldTree, SelectorTree, StructureLociTree, StructureTree,
};
use std::alloc::{AllocError, Global};

impl Spell for SelectorTree {
    ghost spelled = { spell_selector };

    fn spell(&self, alloc: Global, out: &mut Vec<MarkedToken>) -> Result<(), AllocError> {
        emit_symbol(alloc, out, SymbolKind::Selector, &self.symbol)
    }
}

impl Spell for FieldTree {
    ghost spelled = { spell_field };

    fn spell(&self, alloc: Global, out: &mut Vec<MarkedToken>) -> Result<(), AllocError> {
        self.selectors.spell(alloc, out)?;
        emit_special(alloc, out, self.arrow, b"->")?;
        self.ty.spell(alloc, out)
    }
}

impl Spell for StructureLociTree {
    ghost spelled = { spell_structure_loci };

    fn spell(&self, alloc: Global, out: &mut Vec<MarkedToken>) -> Result<(), AllocError> {
        emit_reserved(alloc, out, self.over, b"over")?;
        self.identifiers.spell(alloc, out)
    }
}

impl Spell for AncestorsTree {
    ghost spelled = { spell_ancestors };

    fn spell(&self, alloc: Global, out: &mut Vec<MarkedToken>) -> Result<(), AllocError> {
        emit_special(alloc, out, self.left, b"(")?;
        self.types.spell(alloc, out)?;
        emit_special(alloc, out, self.right, b")")
    }
}

impl Spell for StructureTree {
    ghost spelled = { spell_structure };

    fn spell(&self, alloc: Global, out: &mut Vec<MarkedToken>) -> Result<(), AllocError> {
        emit_reserved(alloc, out, self.struct_, b"struct")?;
        self.ancestors.spell(alloc, out)?;
        emit_symbol(alloc, out, SymbolKind::Structure, &self.symbol)?;
        self.loci.spell(alloc, out)?;
        emit_special(alloc, out, self.left, b"(#")?;
        self.fields.spell(alloc, out)?;
        emit_special(alloc, out, self.right, b"#)")?;
        emit_special(alloc, out, self.semicolon, b";")
    }
}
