//! Clusters of registrations.
ghost use Rattle.std.specs.Prelude.{◌≡◌, ◌++◌, IfOk};
ghost use Rattle.mz_tree_part.specs.Spell.{spell_for_type, spell_existential, spell_conditional, spell_functorial, spell_reduce, spell_identify, spell_cluster};

use crate::tree::Spell;
use mz_base::token::MarkedToken;
use mz_expression_spelling::emit::{emit_reserved, emit_reserved_if, emit_special};
use mz_tree_part::cluster::{
    ClusterTree, ConditionalTree, ExistentialTree, ForTypeTree, FunctorialTree, IdentifyTree,
    ReduceTree,
};
use std::alloc::{AllocError, Global};

impl Spell for ForTypeTree {
    ghost spelled = { spell_for_type };

    fn spell(&self, alloc: Global, out: &mut Vec<MarkedToken>) -> Result<(), AllocError> {
        emit_reserved(alloc, out, self.for_, b"for")?;
        self.ty.spell(alloc, out)
    }
}

impl Spell for ExistentialTree {
    ghost spelled = { spell_existential };

    fn spell(&self, alloc: Global, out: &mut Vec<MarkedToken>) -> Result<(), AllocError> {
        emit_reserved(alloc, out, self.cluster, b"cluster")?;
        self.adjectives.spell(alloc, out)?;
        emit_reserved_if(alloc, out, self.for_, b"for")?;
        self.ty.spell(alloc, out)?;
        emit_special(alloc, out, self.semicolon, b";")
    }
}

impl Spell for ConditionalTree {
    ghost spelled = { spell_conditional };

    fn spell(&self, alloc: Global, out: &mut Vec<MarkedToken>) -> Result<(), AllocError> {
        emit_reserved(alloc, out, self.cluster, b"cluster")?;
        self.premises.spell(alloc, out)?;
        emit_special(alloc, out, self.arrow, b"->")?;
        self.adjectives.spell(alloc, out)?;
        self.for_type.spell(alloc, out)?;
        emit_special(alloc, out, self.semicolon, b";")
    }
}

impl Spell for FunctorialTree {
    ghost spelled = { spell_functorial };

    fn spell(&self, alloc: Global, out: &mut Vec<MarkedToken>) -> Result<(), AllocError> {
        emit_reserved(alloc, out, self.cluster, b"cluster")?;
        self.term.spell(alloc, out)?;
        emit_special(alloc, out, self.arrow, b"->")?;
        self.adjectives.spell(alloc, out)?;
        self.for_type.spell(alloc, out)?;
        emit_special(alloc, out, self.semicolon, b";")
    }
}

impl Spell for ReduceTree {
    ghost spelled = { spell_reduce };

    fn spell(&self, alloc: Global, out: &mut Vec<MarkedToken>) -> Result<(), AllocError> {
        emit_reserved(alloc, out, self.reduce, b"reduce")?;
        self.first.spell(alloc, out)?;
        emit_reserved(alloc, out, self.to, b"to")?;
        self.second.spell(alloc, out)?;
        emit_special(alloc, out, self.semicolon, b";")
    }
}

impl Spell for IdentifyTree {
    ghost spelled = { spell_identify };

    fn spell(&self, alloc: Global, out: &mut Vec<MarkedToken>) -> Result<(), AllocError> {
        emit_reserved(alloc, out, self.identify, b"identify")?;
        self.first.spell(alloc, out)?;
        emit_reserved(alloc, out, self.with, b"with")?;
        self.second.spell(alloc, out)?;
        emit_special(alloc, out, self.semicolon, b";")
    }
}

impl Spell for ClusterTree {
    ghost spelled = { spell_cluster };

    fn spell(&self, alloc: Global, out: &mut Vec<MarkedToken>) -> Result<(), AllocError> {
        match self {
            ClusterTree::Existential(cluster) => cluster.spell(alloc, out),
            ClusterTree::Conditional(cluster) => cluster.spell(alloc, out),
            ClusterTree::Functorial(cluster) => cluster.spell(alloc, out),
            ClusterTree::Reduce(cluster) => cluster.spell(alloc, out),
            ClusterTree::Identify(cluster) => cluster.spell(alloc, out),
        }
    }
}
