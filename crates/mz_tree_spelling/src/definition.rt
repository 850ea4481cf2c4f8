//! Definitions: headings with their conditions and properties.
ghost use Rattle.std.specs.Prelude.{◌≡◌, ◌++◌, IfOk};
ghost use Rattle.mz_tree_item.specs.Spell.{spell_condition, spell_property, spell_condition_or_property, spell_definition, spell_definition_part};

use crate::tree::Spell;
use mz_base::token::MarkedToken;
use mz_expression_spelling::emit::{emit_reserved, emit_special};
use mz_tree_item::definition::{
    ConditionOrPropertyTree, ConditionTree, DefinitionPartTree, DefinitionTree, PropertyTree,
};
use std::alloc::{AllocError, Global};

impl Spell for ConditionTree {
    ghost spelled = { spell_condition };

    fn spell(&self, alloc: Global, out: &mut Vec<MarkedToken>) -> Result<(), AllocError> {
        emit_reserved(alloc, out, self.place, self.word.spelling())?;
        self.just.spell(alloc, out)?;
        emit_special(alloc, out, self.semicolon, b";")
    }
}

impl Spell for PropertyTree {
    ghost spelled = { spell_property };

    fn spell(&self, alloc: Global, out: &mut Vec<MarkedToken>) -> Result<(), AllocError> {
        emit_reserved(alloc, out, self.place, self.word.spelling())?;
        self.just.spell(alloc, out)?;
        emit_special(alloc, out, self.semicolon, b";")
    }
}

impl Spell for ConditionOrPropertyTree {
    ghost spelled = { spell_condition_or_property };

    fn spell(&self, alloc: Global, out: &mut Vec<MarkedToken>) -> Result<(), AllocError> {
        match self {
            ConditionOrPropertyTree::Condition(condition) => condition.spell(alloc, out),
            ConditionOrPropertyTree::Property(property) => property.spell(alloc, out),
        }
    }
}

impl Spell for DefinitionPartTree {
    ghost spelled = { spell_definition_part };

    fn spell(&self, alloc: Global, out: &mut Vec<MarkedToken>) -> Result<(), AllocError> {
        match self {
            DefinitionPartTree::Let(loci) => loci.spell(alloc, out),
            DefinitionPartTree::Heading {
                heading,
                conditions,
            } => {
                heading.spell(alloc, out)?;
                conditions.spell(alloc, out)
            }
        }
    }
}

impl Spell for DefinitionTree {
    ghost spelled = { spell_definition };

    fn spell(&self, alloc: Global, out: &mut Vec<MarkedToken>) -> Result<(), AllocError> {
        emit_reserved(alloc, out, self.definition, b"definition")?;
        self.parts.spell(alloc, out)?;
        emit_reserved(alloc, out, self.end, b"end")?;
        emit_special(alloc, out, self.semicolon, b";")
    }
}
