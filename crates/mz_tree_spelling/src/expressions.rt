//! The trees of expressions: terms, types, adjectives, declarations and formulas.
ghost use Rattle.std.specs.Prelude.{◌≡◌, ◌++◌, IfOk};
ghost use Rattle.mz_tree.specs.Spell.{spell_term, spell_terms, spell_type, spell_adjectives, spell_declarations, spell_formula};

use crate::tree::Spell;
use mz_base::token::MarkedToken;
use mz_expression_spelling::nodes::{
    spell_adjective_node, spell_adjective_nodes, spell_declarations_node, spell_formula_node,
    spell_term_node, spell_terms_node, spell_type_node,
};
use mz_tree::expressions::{
    AdjectivesTree, DeclarationsTree, FormulaTree, TermTree, TermsTree, TypeTree,
};
use std::alloc::{AllocError, Global};

impl Spell for TermTree {
    ghost spelled = { spell_term };

    fn spell(&self, alloc: Global, out: &mut Vec<MarkedToken>) -> Result<(), AllocError> {
        spell_term_node(alloc, out, &self.node)
    }
}

impl Spell for TermsTree {
    ghost spelled = { spell_terms };

    fn spell(&self, alloc: Global, out: &mut Vec<MarkedToken>) -> Result<(), AllocError> {
        spell_terms_node(alloc, out, &self.node)
    }
}

impl Spell for TypeTree {
    ghost spelled = { spell_type };

    fn spell(&self, alloc: Global, out: &mut Vec<MarkedToken>) -> Result<(), AllocError> {
        spell_type_node(alloc, out, &self.node)
    }
}

impl Spell for AdjectivesTree {
    ghost spelled = { spell_adjectives };

    #[tactic(auto, using(mz_expression_spelling::proofs::SpellLemmas::spell_rules))]
    fn spell(&self, alloc: Global, out: &mut Vec<MarkedToken>) -> Result<(), AllocError> {
        spell_adjective_node(alloc, out, &self.first)?;
        spell_adjective_nodes(alloc, out, &self.more)
    }
}

impl Spell for DeclarationsTree {
    ghost spelled = { spell_declarations };

    #[tactic(auto, using(mz_expression_spelling::proofs::SpellLemmas::spell_rules))]
    fn spell(&self, alloc: Global, out: &mut Vec<MarkedToken>) -> Result<(), AllocError> {
        spell_declarations_node(alloc, out, &self.node)
    }
}

impl Spell for FormulaTree {
    ghost spelled = { spell_formula };

    fn spell(&self, alloc: Global, out: &mut Vec<MarkedToken>) -> Result<(), AllocError> {
        spell_formula_node(alloc, out, &self.node)
    }
}
