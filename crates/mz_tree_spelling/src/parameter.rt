//! Parameters of schemes.
ghost use Rattle.std.specs.Prelude.{◌≡◌, ◌++◌, IfOk};
ghost use Rattle.mz_tree_part.specs.Spell.{spell_parameter};

use crate::tree::Spell;
use mz_base::token::MarkedToken;
use mz_expression_spelling::emit::emit_special;
use mz_tree_part::parameter::ParameterTree;
use std::alloc::{AllocError, Global};

impl Spell for ParameterTree {
    ghost spelled = { spell_parameter };

    fn spell(&self, alloc: Global, out: &mut Vec<MarkedToken>) -> Result<(), AllocError> {
        match self {
            ParameterTree::Functor {
                identifiers,
                left,
                types,
                right,
                arrow,
                ty,
            } => {
                identifiers.spell(alloc, out)?;
                emit_special(alloc, out, *left, b"(")?;
                types.spell(alloc, out)?;
                emit_special(alloc, out, *right, b")")?;
                emit_special(alloc, out, *arrow, b"->")?;
                ty.spell(alloc, out)
            }
            ParameterTree::Predicate {
                identifiers,
                left,
                types,
                right,
            } => {
                identifiers.spell(alloc, out)?;
                emit_special(alloc, out, *left, b"[")?;
                types.spell(alloc, out)?;
                emit_special(alloc, out, *right, b"]")
            }
        }
    }
}
