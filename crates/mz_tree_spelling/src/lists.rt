//! Lists of trees, with commas between them or without, and trees that may be left out.
ghost use Rattle.std.specs.Prelude.{◌≡◌, ◌++◌, IfOk};
ghost use Rattle.std.specs.List.{flat_map};
ghost use Rattle.mz_tree.specs.Spelled.{maybe};
ghost use Rattle.mz_tree.specs.Lists.{spell_next, spell_separated};

use crate::tree::Spell;
use mz_base::token::MarkedToken;
use mz_expression_spelling::emit::emit_comma;
use mz_tree::chain::Next;
use mz_tree::lists::{Separated, Trees};
use mz_tree::word::Comma;
use std::alloc::{AllocError, Global};

impl<T: Spell> Spell for Trees<T> {
    ghost spelled = { flat_map T.spelled };

    fn spell(&self, alloc: Global, out: &mut Vec<MarkedToken>) -> Result<(), AllocError> {
        for tree in &self.items {
            tree.spell(alloc, out)?;
        }
        Ok(())
    }
}

impl<T: Spell> Spell for Option<T> {
    ghost spelled = { maybe T.spelled };

    fn spell(&self, alloc: Global, out: &mut Vec<MarkedToken>) -> Result<(), AllocError> {
        match self {
            Some(tree) => tree.spell(alloc, out),
            None => Ok(()),
        }
    }
}

impl<T: Spell> Spell for Next<Comma, T> {
    ghost spelled = { spell_next T.spelled };

    fn spell(&self, alloc: Global, out: &mut Vec<MarkedToken>) -> Result<(), AllocError> {
        emit_comma(alloc, out, self.sign)?;
        self.tree.spell(alloc, out)
    }
}

impl<T: Spell> Spell for Separated<T> {
    ghost spelled = { spell_separated T.spelled };

    fn spell(&self, alloc: Global, out: &mut Vec<MarkedToken>) -> Result<(), AllocError> {
        self.first.spell(alloc, out)?;
        self.more.spell(alloc, out)
    }
}
