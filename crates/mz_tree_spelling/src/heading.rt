//! Headings of definitions.
ghost use Rattle.std.specs.Prelude.{◌≡◌, ◌++◌, IfOk};
ghost use Rattle.mz_tree_heading.specs.Spell.{spell_result, spell_functor_heading, spell_predicate_heading, spell_attribute_heading, spell_mode_heading, spell_abbreviation, spell_heading};

use crate::tree::Spell;
use mz_base::token::MarkedToken;
use mz_expression_spelling::emit::{emit_reserved, emit_special};
use mz_tree_heading::heading::{
    AbbreviationTree, AttributeHeadingTree, FunctorHeadingTree, HeadingTree, ModeHeadingTree,
    PredicateHeadingTree, ResultTree,
};
use std::alloc::{AllocError, Global};

impl Spell for ResultTree {
    ghost spelled = { spell_result };

    fn spell(&self, alloc: Global, out: &mut Vec<MarkedToken>) -> Result<(), AllocError> {
        emit_special(alloc, out, self.arrow, b"->")?;
        self.ty.spell(alloc, out)
    }
}

impl<M: Spell> Spell for FunctorHeadingTree<M> {
    ghost spelled = { spell_functor_heading M.spelled };

    fn spell(&self, alloc: Global, out: &mut Vec<MarkedToken>) -> Result<(), AllocError> {
        emit_reserved(alloc, out, self.func, b"func")?;
        self.pattern.spell(alloc, out)?;
        self.result.spell(alloc, out)?;
        self.meaning.spell(alloc, out)?;
        emit_special(alloc, out, self.semicolon, b";")
    }
}

impl<M: Spell> Spell for PredicateHeadingTree<M> {
    ghost spelled = { spell_predicate_heading M.spelled };

    fn spell(&self, alloc: Global, out: &mut Vec<MarkedToken>) -> Result<(), AllocError> {
        emit_reserved(alloc, out, self.pred, b"pred")?;
        self.pattern.spell(alloc, out)?;
        self.meaning.spell(alloc, out)?;
        emit_special(alloc, out, self.semicolon, b";")
    }
}

impl<M: Spell> Spell for AttributeHeadingTree<M> {
    ghost spelled = { spell_attribute_heading M.spelled };

    fn spell(&self, alloc: Global, out: &mut Vec<MarkedToken>) -> Result<(), AllocError> {
        emit_reserved(alloc, out, self.attr, b"attr")?;
        self.pattern.spell(alloc, out)?;
        self.meaning.spell(alloc, out)?;
        emit_special(alloc, out, self.semicolon, b";")
    }
}

impl<M: Spell> Spell for ModeHeadingTree<M> {
    ghost spelled = { spell_mode_heading M.spelled };

    fn spell(&self, alloc: Global, out: &mut Vec<MarkedToken>) -> Result<(), AllocError> {
        emit_reserved(alloc, out, self.mode, b"mode")?;
        self.pattern.spell(alloc, out)?;
        self.result.spell(alloc, out)?;
        self.meaning.spell(alloc, out)?;
        emit_special(alloc, out, self.semicolon, b";")
    }
}

impl Spell for AbbreviationTree {
    ghost spelled = { spell_abbreviation };

    fn spell(&self, alloc: Global, out: &mut Vec<MarkedToken>) -> Result<(), AllocError> {
        emit_reserved(alloc, out, self.mode, b"mode")?;
        self.pattern.spell(alloc, out)?;
        emit_reserved(alloc, out, self.is, b"is")?;
        self.ty.spell(alloc, out)?;
        emit_special(alloc, out, self.semicolon, b";")
    }
}

impl Spell for HeadingTree {
    ghost spelled = { spell_heading };

    fn spell(&self, alloc: Global, out: &mut Vec<MarkedToken>) -> Result<(), AllocError> {
        match self {
            HeadingTree::Functor(heading) => heading.spell(alloc, out),
            HeadingTree::Predicate(heading) => heading.spell(alloc, out),
            HeadingTree::Attribute(heading) => heading.spell(alloc, out),
            HeadingTree::Mode(heading) => heading.spell(alloc, out),
            HeadingTree::Abbreviation(heading) => heading.spell(alloc, out),
            HeadingTree::Structure(heading) => heading.spell(alloc, out),
            HeadingTree::RedefinedFunctor { redefine, heading } => {
                emit_reserved(alloc, out, *redefine, b"redefine")?;
                heading.spell(alloc, out)
            }
            HeadingTree::RedefinedPredicate { redefine, heading } => {
                emit_reserved(alloc, out, *redefine, b"redefine")?;
                heading.spell(alloc, out)
            }
            HeadingTree::RedefinedAttribute { redefine, heading } => {
                emit_reserved(alloc, out, *redefine, b"redefine")?;
                heading.spell(alloc, out)
            }
            HeadingTree::RedefinedMode { redefine, heading } => {
                emit_reserved(alloc, out, *redefine, b"redefine")?;
                heading.spell(alloc, out)
            }
        }
    }
}
