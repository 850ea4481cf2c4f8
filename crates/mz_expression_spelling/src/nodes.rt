//! The tokens of the nodes of expressions.
ghost use Rattle.std.specs.Prelude.{◌≡◌, ◌++◌, ◌∷◌, [], IfOk, codes, map};
ghost use Rattle.std.specs.List.{flat_map};
ghost use Rattle.mz_base.specs.declared.symbol_kind.SymbolKind.TheVariants as symbols;
ghost use Rattle.mz_tree.specs.Spelled.{reserved, special, symbol};
ghost use Rattle.mz_tree.specs.Spell.{spell_term, spell_piece, spell_prefix_list, spell_prefix, spell_before, spell_base, spell_terms, spell_adjective, spell_type, spell_declared, spell_next_declared, spell_formula, spell_disjunction, spell_conjunction, spell_unit, spell_quantified};
ghost use Rattle.mz_tree.specs.Views.{term_of, piece_of, operand_of, prefix_of, before_of, base_of, terms_of, adjective_of, type_of, declared_of, next_declared_of, formula_of, disjunction_of, conjunction_of, unit_of, quantified_of};

use crate::emit::{
    emit_argument, emit_being, emit_bound, emit_comma, emit_empty, emit_functor, emit_identifier,
    emit_list_comma, emit_mode, emit_non, emit_reserved, emit_selector, emit_special, emit_symbol,
};
use mz_base::place::Place;
use mz_base::symbol_kind::SymbolKind;
use mz_base::token::MarkedToken;
use mz_tree::chain::Before;
use mz_tree::nodes::{
    AdjectiveNode, BaseNode, ConjunctionNode, DeclarationsNode, DeclaredNode, DisjunctionNode,
    FormulaNode, OperandNode, PieceNode, PrefixNode, QuantifiedNode, TermNode, TermsNode, TypeNode,
    UnitNode,
};
use mz_tree::word::Word;
use std::alloc::{AllocError, Global};

/// Adds its tokens.
#[cycle(spell)]
#[tactic(auto, using(crate::proofs::SpellLemmas::spell_rules))]
pub fn spell_term_node(
    alloc: Global,
    out: &mut Vec<MarkedToken>,
    term: &TermNode,
) -> Result<(), AllocError>
    ensures { IfOk result (λ _. out.new.items ≡ out.old.items ++ spell_term (term_of term.now)) }
{
    spell_piece_node(alloc, out, &term.first)?;
    for piece in &term.more {
        spell_piece_node(alloc, out, piece)?;
    }
    Ok(())
}

/// Adds its tokens and the `is` behind them.
#[cycle(spell)]
#[tactic(auto, using(crate::proofs::SpellLemmas::spell_rules))]
fn spell_subject(
    alloc: Global,
    out: &mut Vec<MarkedToken>,
    term: &TermNode,
    is: Place,
) -> Result<(), AllocError>
    ensures { IfOk result (λ _. out.new.items ≡ out.old.items ++ spell_term (term_of term.now) ++ reserved is (codes "is") ∷ []) }
{
    spell_term_node(alloc, out, term)?;
    emit_reserved(alloc, out, is, b"is")
}

/// Adds its tokens.
#[cycle(spell)]
#[tactic(auto, using(crate::proofs::SpellLemmas::spell_rules, mz_tree::proofs::Views::piece_rules))]
pub fn spell_piece_node(
    alloc: Global,
    out: &mut Vec<MarkedToken>,
    piece: &PieceNode,
) -> Result<(), AllocError>
    ensures { IfOk result (λ _. out.new.items ≡ out.old.items ++ spell_piece (piece_of piece.now)) }
{
    match piece {
        PieceNode::Functor(a, b) => emit_functor(alloc, out, a, *b),
        PieceNode::Operand(a) => spell_operand_node(alloc, out, a),
    }
}

/// Adds its tokens.
#[cycle(spell)]
#[tactic(auto, using(crate::proofs::SpellLemmas::spell_rules))]
pub fn spell_operand_node(
    alloc: Global,
    out: &mut Vec<MarkedToken>,
    operand: &OperandNode,
) -> Result<(), AllocError>
    ensures { IfOk result (λ _. out.new.items ≡ out.old.items ++ spell_prefix_list (operand_of operand.now).prefixes ++ spell_base (operand_of operand.now).base) }
{
    for prefix in &operand.prefixes {
        spell_prefix_node(alloc, out, prefix)?;
    }
    spell_base_node(alloc, out, &operand.base)
}

#[cycle(spell)]
#[tactic(auto, using(crate::proofs::SpellLemmas::spell_rules))]
fn spell_befores(
    alloc: Global,
    out: &mut Vec<MarkedToken>,
    befores: &[Before<OperandNode>],
) -> Result<(), AllocError>
    ensures { IfOk result (λ _. out.new.items ≡ out.old.items ++ flat_map spell_before (map before_of befores.now)) }
{
    for before in befores {
        spell_operand_node(alloc, out, &before.tree)?;
        emit_list_comma(alloc, out, before.comma)?;
    }
    Ok(())
}

/// Adds its tokens.
#[cycle(spell)]
#[tactic(auto, using(crate::proofs::SpellLemmas::spell_rules, mz_tree::proofs::Views::prefix_rules))]
pub fn spell_prefix_node(
    alloc: Global,
    out: &mut Vec<MarkedToken>,
    prefix: &PrefixNode,
) -> Result<(), AllocError>
    ensures { IfOk result (λ _. out.new.items ≡ out.old.items ++ spell_prefix (prefix_of prefix.now)) }
{
    match prefix {
        PrefixNode::Selector(a, b, c) => {
            emit_selector(alloc, out, *a, b)?;
            emit_reserved(alloc, out, *c, b"of")
        }
        PrefixNode::ChoiceOf(a, b, c, d, e) => {
            spell_after_the(alloc, out, *a, b)?;
            emit_mode(alloc, out, c)?;
            emit_reserved(alloc, out, *d, b"of")?;
            spell_befores(alloc, out, e)
        }
        PrefixNode::ChoiceOver(a, b, c, d, e) => {
            spell_after_the(alloc, out, *a, b)?;
            emit_symbol(alloc, out, SymbolKind::Structure, c)?;
            emit_reserved(alloc, out, *d, b"over")?;
            spell_befores(alloc, out, e)
        }
    }
}

/// Adds its tokens.
#[cycle(spell)]
#[tactic(auto, using(crate::proofs::SpellLemmas::spell_rules, mz_tree::proofs::Views::base_rules))]
pub fn spell_base_node(
    alloc: Global,
    out: &mut Vec<MarkedToken>,
    base: &BaseNode,
) -> Result<(), AllocError>
    ensures { IfOk result (λ _. out.new.items ≡ out.old.items ++ spell_base (base_of base.now)) }
{
    match base {
        BaseNode::Identifier(a) => emit_identifier(alloc, out, a),
        BaseNode::Subject(a) => emit_reserved(alloc, out, *a, b"it"),
        BaseNode::Argument(a, b) => emit_argument(alloc, out, *a, *b),
        BaseNode::Group(a, b, c) => spell_between(alloc, out, *a, b"(", b, *c, b")"),
        BaseNode::Call(a, b, c) => emit_empty(alloc, out, a, *b, b"(", *c, b")"),
        BaseNode::CallWith(a, b, c, d) => {
            emit_identifier(alloc, out, a)?;
            spell_between(alloc, out, *b, b"(", c, *d, b")")
        }
        BaseNode::Selector(a, b) => emit_selector(alloc, out, *a, b),
        BaseNode::Aggregate(a, b, c, d) => {
            emit_symbol(alloc, out, SymbolKind::Structure, a)?;
            spell_between(alloc, out, *b, b"(#", c, *d, b"#)")
        }
        BaseNode::Brackets(a, b, c) => spell_bracketed(alloc, out, a, b, c),
        BaseNode::Braces(a, b, c) => spell_between(alloc, out, *a, b"{", b, *c, b"}"),
        BaseNode::Squares(a, b, c) => spell_between(alloc, out, *a, b"[", b, *c, b"]"),
        BaseNode::SetOf(a, b, c, d, e, f, g, h, i) => {
            emit_special(alloc, out, *a, b"{")?;
            spell_term_node(alloc, out, b)?;
            emit_bound(alloc, out, *c, d, *e)?;
            spell_type_node(alloc, out, f)?;
            spell_formula_between(alloc, out, *g, b":", h, *i, b"}")
        }
        BaseNode::Choice(a, b, c) => {
            spell_after_the(alloc, out, *a, b)?;
            emit_mode(alloc, out, c)
        }
        BaseNode::ChoiceStructure(a, b, c) => {
            spell_after_the(alloc, out, *a, b)?;
            emit_symbol(alloc, out, SymbolKind::Structure, c)
        }
    }
}

/// Adds the tokens of terms.
#[cycle(spell)]
#[tactic(auto, using(crate::proofs::SpellLemmas::spell_rules))]
pub fn spell_terms_node(
    alloc: Global,
    out: &mut Vec<MarkedToken>,
    terms: &TermsNode,
) -> Result<(), AllocError>
    ensures { IfOk result (λ _. out.new.items ≡ out.old.items ++ spell_terms (terms_of terms.now)) }
{
    spell_term_node(alloc, out, &terms.first)?;
    for next in &terms.more {
        emit_list_comma(alloc, out, next.sign)?;
        spell_term_node(alloc, out, &next.tree)?;
    }
    Ok(())
}

/// Adds the tokens of terms between two special symbols.
#[cycle(spell)]
#[tactic(auto, using(crate::proofs::SpellLemmas::spell_rules))]
fn spell_between(
    alloc: Global,
    out: &mut Vec<MarkedToken>,
    left: Place,
    left_sign: &[u8],
    terms: &TermsNode,
    right: Place,
    right_sign: &[u8],
) -> Result<(), AllocError>
    ensures { IfOk result (λ _. out.new.items ≡ out.old.items ++ special left left_sign.now ∷ spell_terms (terms_of terms.now) ++ special right right_sign.now ∷ []) }
{
    emit_special(alloc, out, left, left_sign)?;
    spell_terms_node(alloc, out, terms)?;
    emit_special(alloc, out, right, right_sign)
}

/// Adds the tokens of terms between two symbols of brackets.
#[cycle(spell)]
#[tactic(auto, using(crate::proofs::SpellLemmas::spell_rules))]
fn spell_bracketed(
    alloc: Global,
    out: &mut Vec<MarkedToken>,
    left: &Word,
    terms: &TermsNode,
    right: &Word,
) -> Result<(), AllocError>
    ensures { IfOk result (λ _. out.new.items ≡ out.old.items ++ symbol symbols.LeftBracket left.now ∷ spell_terms (terms_of terms.now) ++ symbol symbols.RightBracket right.now ∷ []) }
{
    emit_symbol(alloc, out, SymbolKind::LeftBracket, left)?;
    spell_terms_node(alloc, out, terms)?;
    emit_symbol(alloc, out, SymbolKind::RightBracket, right)
}

/// Adds the tokens of terms and the predicate symbol behind them.
#[cycle(spell)]
#[tactic(auto, using(crate::proofs::SpellLemmas::spell_rules))]
fn spell_left(
    alloc: Global,
    out: &mut Vec<MarkedToken>,
    terms: &TermsNode,
    predicate: &Word,
) -> Result<(), AllocError>
    ensures { IfOk result (λ _. out.new.items ≡ out.old.items ++ spell_terms (terms_of terms.now) ++ symbol symbols.Predicate predicate.now ∷ []) }
{
    spell_terms_node(alloc, out, terms)?;
    emit_symbol(alloc, out, SymbolKind::Predicate, predicate)
}

/// Adds its tokens.
#[cycle(spell)]
#[tactic(auto, using(crate::proofs::SpellLemmas::spell_rules, mz_tree::proofs::Views::adjective_rules))]
pub fn spell_adjective_node(
    alloc: Global,
    out: &mut Vec<MarkedToken>,
    adjective: &AdjectiveNode,
) -> Result<(), AllocError>
    ensures { IfOk result (λ _. out.new.items ≡ out.old.items ++ spell_adjective (adjective_of adjective.now)) }
{
    match adjective {
        AdjectiveNode::Plain(a, b) => {
            emit_non(alloc, out, *a)?;
            emit_symbol(alloc, out, SymbolKind::Attribute, b)
        }
        AdjectiveNode::WithIdentifier(a, b, c) => {
            emit_non(alloc, out, *a)?;
            emit_identifier(alloc, out, b)?;
            emit_symbol(alloc, out, SymbolKind::Attribute, c)
        }
        AdjectiveNode::WithTerms(a, b, c, d, e) => {
            emit_non(alloc, out, *a)?;
            spell_between(alloc, out, *b, b"(", c, *d, b")")?;
            emit_symbol(alloc, out, SymbolKind::Attribute, e)
        }
    }
}

/// Adds the tokens of adjectives.
#[cycle(spell)]
#[tactic(auto, using(crate::proofs::SpellLemmas::spell_rules))]
pub fn spell_adjective_nodes(
    alloc: Global,
    out: &mut Vec<MarkedToken>,
    adjectives: &[AdjectiveNode],
) -> Result<(), AllocError>
    ensures { IfOk result (λ _. out.new.items ≡ out.old.items ++ flat_map spell_adjective (map adjective_of adjectives.now)) }
{
    for adjective in adjectives {
        spell_adjective_node(alloc, out, adjective)?;
    }
    Ok(())
}

/// Adds `the` and the tokens of adjectives.
#[cycle(spell)]
#[tactic(auto, using(crate::proofs::SpellLemmas::spell_rules))]
fn spell_after_the(
    alloc: Global,
    out: &mut Vec<MarkedToken>,
    the: Place,
    adjectives: &[AdjectiveNode],
) -> Result<(), AllocError>
    ensures { IfOk result (λ _. out.new.items ≡ out.old.items ++ reserved the (codes "the") ∷ flat_map spell_adjective (map adjective_of adjectives.now)) }
{
    emit_reserved(alloc, out, the, b"the")?;
    spell_adjective_nodes(alloc, out, adjectives)
}

/// Adds its tokens.
#[cycle(spell)]
#[tactic(auto, using(crate::proofs::SpellLemmas::spell_rules, mz_tree::proofs::Views::type_rules))]
pub fn spell_type_node(
    alloc: Global,
    out: &mut Vec<MarkedToken>,
    ty: &TypeNode,
) -> Result<(), AllocError>
    ensures { IfOk result (λ _. out.new.items ≡ out.old.items ++ spell_type (type_of ty.now)) }
{
    match ty {
        TypeNode::Mode(a, b) => {
            spell_adjective_nodes(alloc, out, a)?;
            emit_mode(alloc, out, b)
        }
        TypeNode::ModeOf(a, b, c, d) => {
            spell_adjective_nodes(alloc, out, a)?;
            emit_mode(alloc, out, b)?;
            emit_reserved(alloc, out, *c, b"of")?;
            spell_terms_node(alloc, out, d)
        }
        TypeNode::Structure(a, b) => {
            spell_adjective_nodes(alloc, out, a)?;
            emit_symbol(alloc, out, SymbolKind::Structure, b)
        }
        TypeNode::StructureOver(a, b, c, d) => {
            spell_adjective_nodes(alloc, out, a)?;
            emit_symbol(alloc, out, SymbolKind::Structure, b)?;
            emit_reserved(alloc, out, *c, b"over")?;
            spell_terms_node(alloc, out, d)
        }
    }
}

/// Adds its tokens.
#[cycle(spell)]
#[tactic(auto, using(crate::proofs::SpellLemmas::spell_rules, mz_tree::proofs::Views::declared_rules))]
pub fn spell_declared_node(
    alloc: Global,
    out: &mut Vec<MarkedToken>,
    declared: &DeclaredNode,
) -> Result<(), AllocError>
    ensures { IfOk result (λ _. out.new.items ≡ out.old.items ++ spell_declared (declared_of declared.now)) }
{
    match declared {
        DeclaredNode::Plain(a) => emit_identifier(alloc, out, a),
        DeclaredNode::Typed(a, b, c) => {
            emit_identifier(alloc, out, a)?;
            emit_being(alloc, out, *b)?;
            spell_type_node(alloc, out, c)
        }
    }
}

/// Adds the tokens of declared identifiers.
#[cycle(spell)]
#[tactic(auto, using(crate::proofs::SpellLemmas::spell_rules))]
pub fn spell_declarations_node(
    alloc: Global,
    out: &mut Vec<MarkedToken>,
    declarations: &DeclarationsNode,
) -> Result<(), AllocError>
    ensures { IfOk result (λ _. out.new.items ≡ out.old.items ++ spell_declared (declared_of declarations.now.first) ++ flat_map spell_next_declared (map next_declared_of declarations.now.more.items)) }
{
    spell_declared_node(alloc, out, &declarations.first)?;
    for next in &declarations.more {
        emit_comma(alloc, out, next.sign)?;
        spell_declared_node(alloc, out, &next.tree)?;
    }
    Ok(())
}

/// Adds its tokens.
#[cycle(spell)]
#[tactic(auto, using(crate::proofs::SpellLemmas::spell_rules, mz_tree::proofs::Views::formula_rules))]
pub fn spell_formula_node(
    alloc: Global,
    out: &mut Vec<MarkedToken>,
    formula: &FormulaNode,
) -> Result<(), AllocError>
    ensures { IfOk result (λ _. out.new.items ≡ out.old.items ++ spell_formula (formula_of formula.now)) }
{
    match formula {
        FormulaNode::Plain(a) => spell_disjunction_node(alloc, out, a),
        FormulaNode::Implies(a, b, c) => {
            spell_disjunction_node(alloc, out, a)?;
            emit_reserved(alloc, out, *b, b"implies")?;
            spell_disjunction_node(alloc, out, c)
        }
        FormulaNode::Iff(a, b, c) => {
            spell_disjunction_node(alloc, out, a)?;
            emit_reserved(alloc, out, *b, b"iff")?;
            spell_disjunction_node(alloc, out, c)
        }
    }
}

/// Adds its tokens between two special symbols.
#[cycle(spell)]
#[tactic(auto, using(crate::proofs::SpellLemmas::spell_rules))]
fn spell_formula_between(
    alloc: Global,
    out: &mut Vec<MarkedToken>,
    left: Place,
    left_sign: &[u8],
    formula: &FormulaNode,
    right: Place,
    right_sign: &[u8],
) -> Result<(), AllocError>
    ensures { IfOk result (λ _. out.new.items ≡ out.old.items ++ special left left_sign.now ∷ spell_formula (formula_of formula.now) ++ special right right_sign.now ∷ []) }
{
    emit_special(alloc, out, left, left_sign)?;
    spell_formula_node(alloc, out, formula)?;
    emit_special(alloc, out, right, right_sign)
}

/// Adds the tokens of a disjunction.
#[cycle(spell)]
#[tactic(auto, using(crate::proofs::SpellLemmas::spell_rules))]
pub fn spell_disjunction_node(
    alloc: Global,
    out: &mut Vec<MarkedToken>,
    disjunction: &DisjunctionNode,
) -> Result<(), AllocError>
    ensures { IfOk result (λ _. out.new.items ≡ out.old.items ++ spell_disjunction (disjunction_of disjunction.now)) }
{
    spell_conjunction_node(alloc, out, &disjunction.first)?;
    for next in &disjunction.more {
        emit_reserved(alloc, out, next.sign, b"or")?;
        spell_conjunction_node(alloc, out, &next.tree)?;
    }
    Ok(())
}

/// Adds its tokens.
#[cycle(spell)]
#[tactic(auto, using(crate::proofs::SpellLemmas::spell_rules))]
pub fn spell_conjunction_node(
    alloc: Global,
    out: &mut Vec<MarkedToken>,
    conjunction: &ConjunctionNode,
) -> Result<(), AllocError>
    ensures { IfOk result (λ _. out.new.items ≡ out.old.items ++ spell_conjunction (conjunction_of conjunction.now)) }
{
    spell_unit_node(alloc, out, &conjunction.first)?;
    for next in &conjunction.more {
        emit_special(alloc, out, next.sign, b"&")?;
        spell_unit_node(alloc, out, &next.tree)?;
    }
    Ok(())
}

/// Adds its tokens.
#[cycle(spell)]
#[tactic(auto, using(crate::proofs::SpellLemmas::spell_rules, mz_tree::proofs::Views::unit_rules))]
pub fn spell_unit_node(
    alloc: Global,
    out: &mut Vec<MarkedToken>,
    unit: &UnitNode,
) -> Result<(), AllocError>
    ensures { IfOk result (λ _. out.new.items ≡ out.old.items ++ spell_unit (unit_of unit.now)) }
{
    match unit {
        UnitNode::Not(a, b) => {
            emit_reserved(alloc, out, *a, b"not")?;
            spell_unit_node(alloc, out, b)
        }
        UnitNode::Contradiction(a) => emit_reserved(alloc, out, *a, b"contradiction"),
        UnitNode::Thesis(a) => emit_reserved(alloc, out, *a, b"thesis"),
        UnitNode::Quantified(a) => spell_quantified_node(alloc, out, a),
        UnitNode::Group(a, b, c) => spell_formula_between(alloc, out, *a, b"(", b, *c, b")"),
        UnitNode::Private(a, b, c) => emit_empty(alloc, out, a, *b, b"[", *c, b"]"),
        UnitNode::PrivateWith(a, b, c, d) => {
            emit_identifier(alloc, out, a)?;
            spell_between(alloc, out, *b, b"[", c, *d, b"]")
        }
        UnitNode::Predicate(a) => emit_symbol(alloc, out, SymbolKind::Predicate, a),
        UnitNode::PredicateRight(a, b) => {
            emit_symbol(alloc, out, SymbolKind::Predicate, a)?;
            spell_terms_node(alloc, out, b)
        }
        UnitNode::PredicateLeft(a, b) => spell_left(alloc, out, a, b),
        UnitNode::PredicateBoth(a, b, c) => {
            spell_left(alloc, out, a, b)?;
            spell_terms_node(alloc, out, c)
        }
        UnitNode::IsType(a, b, c) => {
            spell_subject(alloc, out, a, *b)?;
            spell_type_node(alloc, out, c)
        }
        UnitNode::IsAdjectives(a, b, c, d) => {
            spell_subject(alloc, out, a, *b)?;
            spell_adjective_node(alloc, out, c)?;
            spell_adjective_nodes(alloc, out, d)
        }
    }
}

/// Adds its tokens.
#[cycle(spell)]
#[tactic(auto, using(crate::proofs::SpellLemmas::spell_rules, mz_tree::proofs::Views::quantified_rules))]
pub fn spell_quantified_node(
    alloc: Global,
    out: &mut Vec<MarkedToken>,
    quantified: &QuantifiedNode,
) -> Result<(), AllocError>
    ensures { IfOk result (λ _. out.new.items ≡ out.old.items ++ spell_quantified (quantified_of quantified.now)) }
{
    match quantified {
        QuantifiedNode::For(a, b, c, d) => {
            emit_reserved(alloc, out, *a, b"for")?;
            spell_declarations_node(alloc, out, b)?;
            emit_reserved(alloc, out, *c, b"holds")?;
            spell_formula_node(alloc, out, d)
        }
        QuantifiedNode::ForSuch(a, b, c, d, e, f) => {
            emit_reserved(alloc, out, *a, b"for")?;
            spell_declarations_node(alloc, out, b)?;
            emit_reserved(alloc, out, *c, b"st")?;
            spell_formula_node(alloc, out, d)?;
            emit_reserved(alloc, out, *e, b"holds")?;
            spell_formula_node(alloc, out, f)
        }
        QuantifiedNode::ForFurther(a, b, c) => {
            emit_reserved(alloc, out, *a, b"for")?;
            spell_declarations_node(alloc, out, b)?;
            spell_quantified_node(alloc, out, c)
        }
        QuantifiedNode::ForSuchFurther(a, b, c, d, e) => {
            emit_reserved(alloc, out, *a, b"for")?;
            spell_declarations_node(alloc, out, b)?;
            emit_reserved(alloc, out, *c, b"st")?;
            spell_formula_node(alloc, out, d)?;
            spell_quantified_node(alloc, out, e)
        }
        QuantifiedNode::Exists(a, b, c, d) => {
            emit_reserved(alloc, out, *a, b"ex")?;
            spell_declarations_node(alloc, out, b)?;
            emit_reserved(alloc, out, *c, b"st")?;
            spell_formula_node(alloc, out, d)
        }
    }
}
