//! The tokens of reasonings.
ghost use Rattle.std.specs.Prelude.{◌≡◌, ◌++◌, ◌∷◌, [], IfOk, codes};
ghost use Rattle.mz_tree.specs.Spelled.{reserved, special};
ghost use Rattle.std.specs.List.{flat_map};
ghost use Rattle.mz_tree_proof.specs.Spell.{spell_hypotheses};
ghost use Rattle.mz_tree_proof.specs.SpellReasoning.{spell_just, spell_compact, spell_statement, spell_step, spell_suppose};

use crate::tree::Spell;
use mz_base::place::Place;
use mz_base::token::MarkedToken;
use mz_expression_spelling::emit::{emit_reserved, emit_reserved_if, emit_special};
use mz_tree_proof::propositions::HypothesesTree;
use mz_tree_proof::reasoning::{
    CompactNode, CompactTree, JustNode, JustTree, StatementNode, StatementTree, StepNode, StepTree,
    Steps, SupposeNode, SupposeTree, SupposeTrees,
};
use std::alloc::{AllocError, Global};

/// Adds its tokens.
#[cycle(spell)]
#[tactic(auto, using(crate::proofs::SpellLemmas::spell_rules))]
fn spell_just_tree(
    alloc: Global,
    out: &mut Vec<MarkedToken>,
    just: &JustTree,
) -> Result<(), AllocError>
    ensures { IfOk result (λ _. out.new.items ≡ out.old.items ++ spell_just just.now) }
{
    match &just.node {
        JustNode::Simple(a) => {
            a.spell(alloc, out)?;
            Ok(())
        }
        JustNode::Proof(a, b, c) => {
            emit_reserved(alloc, out, *a, b"proof")?;
            spell_steps_tree(alloc, out, b)?;
            emit_reserved(alloc, out, *c, b"end")?;
            Ok(())
        }
    }
}

/// Adds its tokens.
#[cycle(spell)]
#[tactic(auto, using(crate::proofs::SpellLemmas::spell_rules))]
fn spell_compact_tree(
    alloc: Global,
    out: &mut Vec<MarkedToken>,
    compact: &CompactTree,
) -> Result<(), AllocError>
    ensures { IfOk result (λ _. out.new.items ≡ out.old.items ++ spell_compact compact.now) }
{
    match &compact.node {
        CompactNode::Stated(a, b, c, d) => {
            a.spell(alloc, out)?;
            spell_just_tree(alloc, out, b)?;
            c.spell(alloc, out)?;
            emit_special(alloc, out, *d, b";")?;
            Ok(())
        }
    }
}

/// Adds its tokens.
#[cycle(spell)]
#[tactic(auto, using(crate::proofs::SpellLemmas::spell_rules))]
fn spell_statement_tree(
    alloc: Global,
    out: &mut Vec<MarkedToken>,
    statement: &StatementTree,
) -> Result<(), AllocError>
    ensures { IfOk result (λ _. out.new.items ≡ out.old.items ++ spell_statement statement.now) }
{
    match &statement.node {
        StatementNode::Compact(a, b) => {
            emit_reserved_if(alloc, out, *a, b"then")?;
            spell_compact_tree(alloc, out, b)?;
            Ok(())
        }
        StatementNode::Now(a, b, c, d, e) => {
            a.spell(alloc, out)?;
            emit_reserved(alloc, out, *b, b"now")?;
            spell_steps_tree(alloc, out, c)?;
            emit_reserved(alloc, out, *d, b"end")?;
            emit_special(alloc, out, *e, b";")?;
            Ok(())
        }
        StatementNode::Introduction(a) => {
            a.spell(alloc, out)?;
            Ok(())
        }
    }
}

/// Adds its tokens.
#[cycle(spell)]
#[tactic(auto, using(crate::proofs::SpellLemmas::spell_rules))]
fn spell_step_tree(
    alloc: Global,
    out: &mut Vec<MarkedToken>,
    step: &StepTree,
) -> Result<(), AllocError>
    ensures { IfOk result (λ _. out.new.items ≡ out.old.items ++ spell_step step.now) }
{
    match &step.node {
        StepNode::Statement(a) => {
            spell_statement_tree(alloc, out, a)?;
            Ok(())
        }
        StepNode::Thus(a, b) => {
            emit_reserved(alloc, out, *a, b"thus")?;
            spell_compact_tree(alloc, out, b)?;
            Ok(())
        }
        StepNode::Hence(a, b) => {
            emit_reserved(alloc, out, *a, b"hence")?;
            spell_compact_tree(alloc, out, b)?;
            Ok(())
        }
        StepNode::Hereby(a, b, c, d) => {
            emit_reserved(alloc, out, *a, b"hereby")?;
            spell_steps_tree(alloc, out, b)?;
            emit_reserved(alloc, out, *c, b"end")?;
            emit_special(alloc, out, *d, b";")?;
            Ok(())
        }
        StepNode::Skeleton(a) => {
            a.spell(alloc, out)?;
            Ok(())
        }
        StepNode::Cases(a, b, c) => {
            a.spell(alloc, out)?;
            spell_suppose_tree(alloc, out, b)?;
            spell_supposes_tree(alloc, out, c)?;
            Ok(())
        }
    }
}

/// Adds its tokens.
#[cycle(spell)]
#[tactic(auto, using(crate::proofs::SpellLemmas::spell_rules))]
fn spell_suppose_tree(
    alloc: Global,
    out: &mut Vec<MarkedToken>,
    suppose: &SupposeTree,
) -> Result<(), AllocError>
    ensures { IfOk result (λ _. out.new.items ≡ out.old.items ++ spell_suppose suppose.now) }
{
    match &suppose.node {
        SupposeNode::Case(a, b, c, d, e, f) => {
            spell_suppose_head(alloc, out, *a, b, *c)?;
            spell_steps_tree(alloc, out, d)?;
            emit_end(alloc, out, *e, *f)?;
            Ok(())
        }
    }
}

/// Adds their tokens.
#[cycle(spell)]
#[tactic(auto, using(crate::proofs::SpellLemmas::spell_rules))]
fn spell_steps_tree(
    alloc: Global,
    out: &mut Vec<MarkedToken>,
    steps: &Steps,
) -> Result<(), AllocError>
    ensures { IfOk result (λ _. out.new.items ≡ out.old.items ++ flat_map spell_step steps.now) }
{
    for t in &steps.items {
        spell_step_tree(alloc, out, t)?;
    }
    Ok(())
}

/// Adds their tokens.
#[cycle(spell)]
#[tactic(auto, using(crate::proofs::SpellLemmas::spell_rules))]
fn spell_supposes_tree(
    alloc: Global,
    out: &mut Vec<MarkedToken>,
    supposes: &SupposeTrees,
) -> Result<(), AllocError>
    ensures { IfOk result (λ _. out.new.items ≡ out.old.items ++ flat_map spell_suppose supposes.now) }
{
    for t in &supposes.items {
        spell_suppose_tree(alloc, out, t)?;
    }
    Ok(())
}

/// `suppose .. ;`
#[tactic(auto, using(crate::proofs::SpellLemmas::spell_rules))]
fn spell_suppose_head(
    alloc: Global,
    out: &mut Vec<MarkedToken>,
    place: Place,
    hypotheses: &HypothesesTree,
    semicolon: Place,
) -> Result<(), AllocError>
    ensures { IfOk result (λ _. out.new.items ≡ out.old.items ++ reserved place (codes "suppose") ∷ spell_hypotheses hypotheses.now ++ special semicolon (codes ";") ∷ []) }
{
    emit_reserved(alloc, out, place, b"suppose")?;
    hypotheses.spell(alloc, out)?;
    emit_special(alloc, out, semicolon, b";")?;
    Ok(())
}

/// `end ;`
#[tactic(auto, using(crate::proofs::SpellLemmas::spell_rules))]
fn emit_end(
    alloc: Global,
    out: &mut Vec<MarkedToken>,
    end: Place,
    semicolon: Place,
) -> Result<(), AllocError>
    ensures { IfOk result (λ _. out.new.items ≡ out.old.items ++ reserved end (codes "end") ∷ special semicolon (codes ";") ∷ []) }
{
    emit_reserved(alloc, out, end, b"end")?;
    emit_special(alloc, out, semicolon, b";")?;
    Ok(())
}

impl Spell for JustTree {
    ghost spelled = { spell_just };

    fn spell(&self, alloc: Global, out: &mut Vec<MarkedToken>) -> Result<(), AllocError> {
        spell_just_tree(alloc, out, self)
    }
}

impl Spell for CompactTree {
    ghost spelled = { spell_compact };

    fn spell(&self, alloc: Global, out: &mut Vec<MarkedToken>) -> Result<(), AllocError> {
        spell_compact_tree(alloc, out, self)
    }
}

impl Spell for StatementTree {
    ghost spelled = { spell_statement };

    fn spell(&self, alloc: Global, out: &mut Vec<MarkedToken>) -> Result<(), AllocError> {
        spell_statement_tree(alloc, out, self)
    }
}

impl Spell for StepTree {
    ghost spelled = { spell_step };

    fn spell(&self, alloc: Global, out: &mut Vec<MarkedToken>) -> Result<(), AllocError> {
        spell_step_tree(alloc, out, self)
    }
}

impl Spell for SupposeTree {
    ghost spelled = { spell_suppose };

    fn spell(&self, alloc: Global, out: &mut Vec<MarkedToken>) -> Result<(), AllocError> {
        spell_suppose_tree(alloc, out, self)
    }
}

impl Spell for Steps {
    ghost spelled = { flat_map spell_step };

    fn spell(&self, alloc: Global, out: &mut Vec<MarkedToken>) -> Result<(), AllocError> {
        spell_steps_tree(alloc, out, self)
    }
}

impl Spell for SupposeTrees {
    ghost spelled = { flat_map spell_suppose };

    fn spell(&self, alloc: Global, out: &mut Vec<MarkedToken>) -> Result<(), AllocError> {
        spell_supposes_tree(alloc, out, self)
    }
}
