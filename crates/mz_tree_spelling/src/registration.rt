//! Registrations: clusters with their conditions.
ghost use Rattle.std.specs.Prelude.{◌≡◌, ◌++◌, IfOk};
ghost use Rattle.mz_tree_item.specs.Spell.{spell_registration, spell_registration_part};

use crate::tree::Spell;
use mz_base::token::MarkedToken;
use mz_expression_spelling::emit::{emit_reserved, emit_special};
use mz_tree_item::registration::{RegistrationPartTree, RegistrationTree};
use std::alloc::{AllocError, Global};

impl Spell for RegistrationPartTree {
    ghost spelled = { spell_registration_part };

    fn spell(&self, alloc: Global, out: &mut Vec<MarkedToken>) -> Result<(), AllocError> {
        match self {
            RegistrationPartTree::Let(loci) => loci.spell(alloc, out),
            RegistrationPartTree::Cluster {
                cluster,
                conditions,
            } => {
                cluster.spell(alloc, out)?;
                conditions.spell(alloc, out)
            }
        }
    }
}

impl Spell for RegistrationTree {
    ghost spelled = { spell_registration };

    fn spell(&self, alloc: Global, out: &mut Vec<MarkedToken>) -> Result<(), AllocError> {
        emit_reserved(alloc, out, self.registration, b"registration")?;
        self.parts.spell(alloc, out)?;
        emit_reserved(alloc, out, self.end, b"end")?;
        emit_special(alloc, out, self.semicolon, b";")
    }
}
