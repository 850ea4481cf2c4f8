//! Patterns and their loci.
ghost use Rattle.std.specs.Prelude.{◌≡◌, ◌++◌, IfOk};
ghost use Rattle.mz_tree_heading.specs.Spell.{spell_identifier, spell_loci, spell_mode_loci, spell_functor_pattern, spell_predicate_pattern, spell_attribute_pattern, spell_symbol_pattern, spell_mode_pattern, spell_pattern};

use crate::tree::Spell;
use mz_base::symbol_kind::SymbolKind;
use mz_base::token::MarkedToken;
use mz_expression_spelling::emit::{
    emit_functor, emit_identifier, emit_mode, emit_reserved, emit_special, emit_symbol,
};
use mz_tree_heading::patterns::{
    AttributePatternTree, FunctorPatternTree, IdentifierTree, LociTree, ModeLociTree,
    ModePatternTree, PatternTree, PredicatePatternTree, SymbolPatternTree,
};
use std::alloc::{AllocError, Global};

impl Spell for IdentifierTree {
    ghost spelled = { spell_identifier };

    fn spell(&self, alloc: Global, out: &mut Vec<MarkedToken>) -> Result<(), AllocError> {
        emit_identifier(alloc, out, &self.name)
    }
}

impl Spell for LociTree {
    ghost spelled = { spell_loci };

    fn spell(&self, alloc: Global, out: &mut Vec<MarkedToken>) -> Result<(), AllocError> {
        match self {
            LociTree::One(name) => emit_identifier(alloc, out, name),
            LociTree::Several {
                left,
                identifiers,
                right,
            } => {
                emit_special(alloc, out, *left, b"(")?;
                identifiers.spell(alloc, out)?;
                emit_special(alloc, out, *right, b")")
            }
        }
    }
}

impl Spell for ModeLociTree {
    ghost spelled = { spell_mode_loci };

    fn spell(&self, alloc: Global, out: &mut Vec<MarkedToken>) -> Result<(), AllocError> {
        emit_reserved(alloc, out, self.of, b"of")?;
        self.identifiers.spell(alloc, out)
    }
}

impl Spell for FunctorPatternTree {
    ghost spelled = { spell_functor_pattern };

    fn spell(&self, alloc: Global, out: &mut Vec<MarkedToken>) -> Result<(), AllocError> {
        match self {
            FunctorPatternTree::Symbol(pattern) => pattern.spell(alloc, out),
            FunctorPatternTree::Brackets {
                left,
                identifiers,
                right,
            } => {
                emit_symbol(alloc, out, SymbolKind::LeftBracket, left)?;
                identifiers.spell(alloc, out)?;
                emit_symbol(alloc, out, SymbolKind::RightBracket, right)
            }
            FunctorPatternTree::Braces {
                left,
                identifiers,
                right,
            } => {
                emit_special(alloc, out, *left, b"{")?;
                identifiers.spell(alloc, out)?;
                emit_special(alloc, out, *right, b"}")
            }
            FunctorPatternTree::Squares {
                left,
                identifiers,
                right,
            } => {
                emit_special(alloc, out, *left, b"[")?;
                identifiers.spell(alloc, out)?;
                emit_special(alloc, out, *right, b"]")
            }
        }
    }
}

impl Spell for PredicatePatternTree {
    ghost spelled = { spell_predicate_pattern };

    fn spell(&self, alloc: Global, out: &mut Vec<MarkedToken>) -> Result<(), AllocError> {
        self.left.spell(alloc, out)?;
        emit_symbol(alloc, out, SymbolKind::Predicate, &self.symbol)?;
        self.right.spell(alloc, out)
    }
}

impl Spell for AttributePatternTree {
    ghost spelled = { spell_attribute_pattern };

    fn spell(&self, alloc: Global, out: &mut Vec<MarkedToken>) -> Result<(), AllocError> {
        emit_identifier(alloc, out, &self.subject)?;
        emit_reserved(alloc, out, self.is, b"is")?;
        self.loci.spell(alloc, out)?;
        emit_symbol(alloc, out, SymbolKind::Attribute, &self.symbol)
    }
}

impl Spell for SymbolPatternTree {
    ghost spelled = { spell_symbol_pattern };

    fn spell(&self, alloc: Global, out: &mut Vec<MarkedToken>) -> Result<(), AllocError> {
        self.left.spell(alloc, out)?;
        emit_functor(alloc, out, &self.symbol, self.priority)?;
        self.right.spell(alloc, out)
    }
}

impl Spell for ModePatternTree {
    ghost spelled = { spell_mode_pattern };

    fn spell(&self, alloc: Global, out: &mut Vec<MarkedToken>) -> Result<(), AllocError> {
        emit_mode(alloc, out, &self.symbol)?;
        self.loci.spell(alloc, out)
    }
}

impl Spell for PatternTree {
    ghost spelled = { spell_pattern };

    fn spell(&self, alloc: Global, out: &mut Vec<MarkedToken>) -> Result<(), AllocError> {
        match self {
            PatternTree::Functor(pattern) => pattern.spell(alloc, out),
            PatternTree::Predicate(pattern) => pattern.spell(alloc, out),
            PatternTree::Attribute(pattern) => pattern.spell(alloc, out),
            PatternTree::Mode(pattern) => pattern.spell(alloc, out),
        }
    }
}
