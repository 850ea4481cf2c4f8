//! Steps of the skeleton: `let`, `assume`, `given`, `take`, and the beginning of a split into cases.
ghost use Rattle.std.specs.Prelude.{◌≡◌, ◌++◌, IfOk};
ghost use Rattle.mz_tree_proof.specs.Spell.{spell_let, spell_assume, spell_given, spell_taken, spell_take, spell_skeleton, spell_split};

use crate::tree::Spell;
use mz_base::token::MarkedToken;
use mz_expression_spelling::emit::{emit_reserved, emit_reserved_if, emit_special};
use mz_tree_proof::skeleton::{
    AssumeTree, GivenTree, LetTree, SkeletonTree, SplitTree, TakeTree, TakenTree,
};
use std::alloc::{AllocError, Global};

impl Spell for LetTree {
    ghost spelled = { spell_let };

    fn spell(&self, alloc: Global, out: &mut Vec<MarkedToken>) -> Result<(), AllocError> {
        emit_reserved(alloc, out, self.let_, b"let")?;
        self.declarations.spell(alloc, out)?;
        self.such.spell(alloc, out)?;
        emit_special(alloc, out, self.semicolon, b";")
    }
}

impl Spell for AssumeTree {
    ghost spelled = { spell_assume };

    fn spell(&self, alloc: Global, out: &mut Vec<MarkedToken>) -> Result<(), AllocError> {
        emit_reserved(alloc, out, self.assume, b"assume")?;
        self.hypotheses.spell(alloc, out)?;
        emit_special(alloc, out, self.semicolon, b";")
    }
}

impl Spell for GivenTree {
    ghost spelled = { spell_given };

    fn spell(&self, alloc: Global, out: &mut Vec<MarkedToken>) -> Result<(), AllocError> {
        emit_reserved(alloc, out, self.given, b"given")?;
        self.declarations.spell(alloc, out)?;
        self.such.spell(alloc, out)?;
        emit_special(alloc, out, self.semicolon, b";")
    }
}

impl Spell for TakenTree {
    ghost spelled = { spell_taken };

    fn spell(&self, alloc: Global, out: &mut Vec<MarkedToken>) -> Result<(), AllocError> {
        match self {
            TakenTree::Plain(term) => term.spell(alloc, out),
            TakenTree::Named(named) => named.spell(alloc, out),
        }
    }
}

impl Spell for TakeTree {
    ghost spelled = { spell_take };

    fn spell(&self, alloc: Global, out: &mut Vec<MarkedToken>) -> Result<(), AllocError> {
        emit_reserved(alloc, out, self.take, b"take")?;
        self.taken.spell(alloc, out)?;
        emit_special(alloc, out, self.semicolon, b";")
    }
}

impl Spell for SkeletonTree {
    ghost spelled = { spell_skeleton };

    fn spell(&self, alloc: Global, out: &mut Vec<MarkedToken>) -> Result<(), AllocError> {
        match self {
            SkeletonTree::Let(tree) => tree.spell(alloc, out),
            SkeletonTree::Assume(tree) => tree.spell(alloc, out),
            SkeletonTree::Given(tree) => tree.spell(alloc, out),
            SkeletonTree::Take(tree) => tree.spell(alloc, out),
        }
    }
}

impl Spell for SplitTree {
    ghost spelled = { spell_split };

    fn spell(&self, alloc: Global, out: &mut Vec<MarkedToken>) -> Result<(), AllocError> {
        emit_reserved_if(alloc, out, self.then, b"then")?;
        emit_reserved(alloc, out, self.per, b"per")?;
        emit_reserved(alloc, out, self.cases, b"cases")?;
        self.simple.spell(alloc, out)?;
        emit_special(alloc, out, self.semicolon, b";")
    }
}
