//! The identifiers that stand as variables in an expression and that no quantifier in it binds.
ghost use Rattle.std.specs.Prelude.{◌≡◌, ◌++◌, ◌∷◌, [], OnOk, IfOk, map};
ghost use Rattle.std.specs.List.{flat_map};
ghost use Rattle.mz_tree.specs.Trees.{next_declareds_of};
ghost use Rattle.mz_tree.specs.Views.{term_of, piece_of, operand_of, prefix_of, before_of, base_of, terms_of, adjective_of, type_of, declared_of, next_declared_of, formula_of, disjunction_of, conjunction_of, unit_of, quantified_of};
ghost use Rattle.mz_free.specs.Occurring.{in_term, in_piece, in_prefixes, in_prefix, in_base, in_before, in_terms, in_adjective, in_type, in_declared, in_its_type, bound_behind, waiting_behind, declared_name, next_names, unbound, in_formula, in_disjunction, in_conjunction, in_unit, in_quantified};

use crate::name_list::NameList;
use mz_base::text::Text;
use mz_tree::chain::Before;
use mz_tree::nodes::{
    AdjectiveNode, BaseNode, ConjunctionNode, DeclarationsNode, DeclaredNode, DisjunctionNode,
    FormulaNode, OperandNode, PieceNode, PrefixNode, QuantifiedNode, TermNode, TermsNode, TypeNode,
    UnitNode,
};
use mz_tree::word::Word;
use std::alloc::{AllocError, Global};

fn put_name(alloc: Global, out: &mut NameList, x: &Word) -> Result<(), AllocError>
    ensures { OnOk result (out.new ≡ out.old ++ x.now.spelling ∷ []) }
{
    let name = x.spelling.copy(alloc)?;
    out.push(name)
}

/// Puts the names but for the one at the end.
fn push_but_one(
    alloc: Global,
    x: &Word,
    names: NameList,
    out: &mut NameList,
) -> Result<(), AllocError>
    ensures { OnOk result (out.new ≡ out.old ++ unbound (x.now.spelling ∷ []) names) }
{
    let mut bound = NameList::new(alloc);
    put_name(alloc, &mut bound, x)?;
    out.push_unbound(alloc, &bound, &names)
}

/// Puts the names but for those that the declarations declare at the end.
fn push_but_declared(
    alloc: Global,
    node: &DeclarationsNode,
    names: NameList,
    out: &mut NameList,
) -> Result<(), AllocError>
    ensures { OnOk result (out.new ≡ out.old ++ unbound (declared_name (declared_of node.now.first) ∷ next_names (next_declareds_of (map next_declared_of node.now.more.items))) names) }
{
    let bound = names_of(alloc, node)?;
    out.push_unbound(alloc, &bound, &names)
}

#[cycle(occurring)]
#[tactic(auto, using(crate::proofs::OccurringLemmas::list_rules))]
fn put_term(alloc: Global, node: &TermNode, out: &mut NameList) -> Result<(), AllocError>
    ensures { OnOk result (out.new ≡ out.old ++ in_term (term_of node.now)) }
{
    put_piece(alloc, &node.first, out)?;
    for piece in &node.more {
        put_piece(alloc, piece, out)?;
    }
    Ok(())
}

#[cycle(occurring)]
#[tactic(auto, using(crate::proofs::OccurringLemmas::list_rules, mz_tree::proofs::Views::piece_rules))]
fn put_piece(alloc: Global, node: &PieceNode, out: &mut NameList) -> Result<(), AllocError>
    ensures { OnOk result (out.new ≡ out.old ++ in_piece (piece_of node.now)) }
{
    match node {
        PieceNode::Functor(_, _) => Ok(()),
        PieceNode::Operand(a) => put_operand(alloc, a, out),
    }
}

#[cycle(occurring)]
#[tactic(auto, using(crate::proofs::OccurringLemmas::list_rules))]
fn put_operand(alloc: Global, node: &OperandNode, out: &mut NameList) -> Result<(), AllocError>
    ensures { OnOk result (out.new ≡ out.old ++ in_prefixes (operand_of node.now).prefixes ++ in_base (operand_of node.now).base) }
{
    for prefix in &node.prefixes {
        put_prefix(alloc, prefix, out)?;
    }
    put_base(alloc, &node.base, out)
}

#[cycle(occurring)]
#[tactic(auto, using(crate::proofs::OccurringLemmas::list_rules, mz_tree::proofs::Views::prefix_rules))]
fn put_prefix(alloc: Global, node: &PrefixNode, out: &mut NameList) -> Result<(), AllocError>
    ensures { OnOk result (out.new ≡ out.old ++ in_prefix (prefix_of node.now)) }
{
    match node {
        PrefixNode::Selector(_, _, _) => Ok(()),
        PrefixNode::ChoiceOf(_, a, _, _, b) => {
            put_adjectives(alloc, a, out)?;
            put_befores(alloc, b, out)
        }
        PrefixNode::ChoiceOver(_, a, _, _, b) => {
            put_adjectives(alloc, a, out)?;
            put_befores(alloc, b, out)
        }
    }
}

#[cycle(occurring)]
#[tactic(auto, using(crate::proofs::OccurringLemmas::list_rules))]
fn put_befores(
    alloc: Global,
    nodes: &[Before<OperandNode>],
    out: &mut NameList,
) -> Result<(), AllocError>
    ensures { OnOk result (out.new ≡ out.old ++ flat_map in_before (map before_of nodes.now)) }
{
    for before in nodes {
        put_operand(alloc, &before.tree, out)?;
    }
    Ok(())
}

#[cycle(occurring)]
#[tactic(auto, using(crate::proofs::OccurringLemmas::list_rules, mz_tree::proofs::Views::base_rules))]
fn put_base(alloc: Global, node: &BaseNode, out: &mut NameList) -> Result<(), AllocError>
    ensures { OnOk result (out.new ≡ out.old ++ in_base (base_of node.now)) }
{
    match node {
        BaseNode::Identifier(a) => put_name(alloc, out, a),
        BaseNode::Subject(_) => Ok(()),
        BaseNode::Argument(_, _) => Ok(()),
        BaseNode::Group(_, a, _) => put_terms(alloc, a, out),
        BaseNode::Call(_, _, _) => Ok(()),
        BaseNode::CallWith(_, _, a, _) => put_terms(alloc, a, out),
        BaseNode::Selector(_, _) => Ok(()),
        BaseNode::Aggregate(_, _, a, _) => put_terms(alloc, a, out),
        BaseNode::Brackets(_, a, _) => put_terms(alloc, a, out),
        BaseNode::Braces(_, a, _) => put_terms(alloc, a, out),
        BaseNode::Squares(_, a, _) => put_terms(alloc, a, out),
        BaseNode::SetOf(_, t, _, x, _, ty, _, f, _) => {
            let mut term = NameList::new(alloc);
            put_term(alloc, t, &mut term)?;
            push_but_one(alloc, x, term, out)?;
            put_type(alloc, ty, out)?;
            let mut formula = NameList::new(alloc);
            put_formula(alloc, f, &mut formula)?;
            push_but_one(alloc, x, formula, out)
        }
        BaseNode::Choice(_, a, _) => put_adjectives(alloc, a, out),
        BaseNode::ChoiceStructure(_, a, _) => put_adjectives(alloc, a, out),
    }
}

#[cycle(occurring)]
#[tactic(auto, using(crate::proofs::OccurringLemmas::list_rules))]
fn put_terms(alloc: Global, node: &TermsNode, out: &mut NameList) -> Result<(), AllocError>
    ensures { OnOk result (out.new ≡ out.old ++ in_terms (terms_of node.now)) }
{
    put_term(alloc, &node.first, out)?;
    for next in &node.more {
        put_term(alloc, &next.tree, out)?;
    }
    Ok(())
}

#[cycle(occurring)]
#[tactic(auto, using(crate::proofs::OccurringLemmas::list_rules))]
fn put_adjectives(
    alloc: Global,
    nodes: &[AdjectiveNode],
    out: &mut NameList,
) -> Result<(), AllocError>
    ensures { OnOk result (out.new ≡ out.old ++ flat_map in_adjective (map adjective_of nodes.now)) }
{
    for adjective in nodes {
        put_adjective(alloc, adjective, out)?;
    }
    Ok(())
}

#[cycle(occurring)]
#[tactic(auto, using(crate::proofs::OccurringLemmas::list_rules, mz_tree::proofs::Views::adjective_rules))]
fn put_adjective(alloc: Global, node: &AdjectiveNode, out: &mut NameList) -> Result<(), AllocError>
    ensures { OnOk result (out.new ≡ out.old ++ in_adjective (adjective_of node.now)) }
{
    match node {
        AdjectiveNode::Plain(_, _) => Ok(()),
        AdjectiveNode::WithIdentifier(_, a, _) => put_name(alloc, out, a),
        AdjectiveNode::WithTerms(_, _, a, _, _) => put_terms(alloc, a, out),
    }
}

#[cycle(occurring)]
#[tactic(auto, using(crate::proofs::OccurringLemmas::list_rules, mz_tree::proofs::Views::type_rules))]
fn put_type(alloc: Global, node: &TypeNode, out: &mut NameList) -> Result<(), AllocError>
    ensures { OnOk result (out.new ≡ out.old ++ in_type (type_of node.now)) }
{
    match node {
        TypeNode::Mode(a, _) => put_adjectives(alloc, a, out),
        TypeNode::ModeOf(a, _, _, b) => {
            put_adjectives(alloc, a, out)?;
            put_terms(alloc, b, out)
        }
        TypeNode::Structure(a, _) => put_adjectives(alloc, a, out),
        TypeNode::StructureOver(a, _, _, b) => {
            put_adjectives(alloc, a, out)?;
            put_terms(alloc, b, out)
        }
    }
}

#[tactic(auto, using(mz_tree::proofs::Views::declared_rules))]
fn name_of(alloc: Global, node: &DeclaredNode) -> Result<Text, AllocError>
    ensures { IfOk result (λ x. x ≡ declared_name (declared_of node.now)) }
{
    match node {
        DeclaredNode::Plain(x) => x.spelling.copy(alloc),
        DeclaredNode::Typed(x, _, _) => x.spelling.copy(alloc),
    }
}

/// The names that the declarations declare.
#[tactic(auto, using(crate::proofs::OccurringLemmas::list_rules))]
fn names_of(alloc: Global, node: &DeclarationsNode) -> Result<NameList, AllocError>
    ensures { IfOk result (λ xs. xs ≡ declared_name (declared_of node.now.first) ∷ next_names (next_declareds_of (map next_declared_of node.now.more.items))) }
{
    let mut out = NameList::new(alloc);
    out.push(name_of(alloc, &node.first)?)?;
    for next in &node.more {
        out.push(name_of(alloc, &next.tree)?)?;
    }
    Ok(out)
}

/// One declared name: the free names of its type, what is bound behind it, and what waits for a type.
#[cycle(occurring)]
#[tactic(auto, using(crate::proofs::OccurringLemmas::list_rules, mz_tree::proofs::Views::declared_rules))]
fn put_declared(
    alloc: Global,
    node: &DeclaredNode,
    bound: &mut NameList,
    waiting: &mut NameList,
    out: &mut NameList,
) -> Result<(), AllocError>
    ensures names { OnOk result (out.new ≡ out.old ++ in_its_type bound.old (declared_of node.now)) }
    ensures bound { OnOk result (bound.new ≡ bound_behind bound.old waiting.old (declared_of node.now)) }
    ensures waiting { OnOk result (waiting.new ≡ waiting_behind waiting.old (declared_of node.now)) }
{
    match node {
        DeclaredNode::Plain(x) => put_name(alloc, waiting, x),
        DeclaredNode::Typed(x, _, ty) => {
            let mut inner = NameList::new(alloc);
            put_type(alloc, ty, &mut inner)?;
            out.push_unbound(alloc, bound, &inner)?;
            bound.items.append(&mut waiting.items)?;
            put_name(alloc, bound, x)
        }
    }
}

#[cycle(occurring)]
#[tactic(auto, using(crate::proofs::OccurringLemmas::declared_rules))]
fn put_declarations(
    alloc: Global,
    node: &DeclarationsNode,
    out: &mut NameList,
) -> Result<(), AllocError>
    ensures { OnOk result (out.new ≡ out.old ++ in_declared [] [] (declared_of node.now.first) (next_declareds_of (map next_declared_of node.now.more.items))) }
{
    let mut bound = NameList::new(alloc);
    let mut waiting = NameList::new(alloc);
    put_declared(alloc, &node.first, &mut bound, &mut waiting, out)?;
    for next in &node.more {
        put_declared(alloc, &next.tree, &mut bound, &mut waiting, out)?;
    }
    Ok(())
}

/// Puts the names that stand as variables in the formula and aren't bound in it at the end.
#[cycle(occurring)]
#[tactic(auto, using(crate::proofs::OccurringLemmas::list_rules, mz_tree::proofs::Views::formula_rules))]
pub fn put_formula(alloc: Global, node: &FormulaNode, out: &mut NameList) -> Result<(), AllocError>
    ensures { OnOk result (out.new ≡ out.old ++ in_formula (formula_of node.now)) }
{
    match node {
        FormulaNode::Plain(a) => put_disjunction(alloc, a, out),
        FormulaNode::Implies(a, _, b) => {
            put_disjunction(alloc, a, out)?;
            put_disjunction(alloc, b, out)
        }
        FormulaNode::Iff(a, _, b) => {
            put_disjunction(alloc, a, out)?;
            put_disjunction(alloc, b, out)
        }
    }
}

#[cycle(occurring)]
#[tactic(auto, using(crate::proofs::OccurringLemmas::list_rules))]
fn put_disjunction(
    alloc: Global,
    node: &DisjunctionNode,
    out: &mut NameList,
) -> Result<(), AllocError>
    ensures { OnOk result (out.new ≡ out.old ++ in_disjunction (disjunction_of node.now)) }
{
    put_conjunction(alloc, &node.first, out)?;
    for next in &node.more {
        put_conjunction(alloc, &next.tree, out)?;
    }
    Ok(())
}

#[cycle(occurring)]
#[tactic(auto, using(crate::proofs::OccurringLemmas::list_rules))]
fn put_conjunction(
    alloc: Global,
    node: &ConjunctionNode,
    out: &mut NameList,
) -> Result<(), AllocError>
    ensures { OnOk result (out.new ≡ out.old ++ in_conjunction (conjunction_of node.now)) }
{
    put_unit(alloc, &node.first, out)?;
    for next in &node.more {
        put_unit(alloc, &next.tree, out)?;
    }
    Ok(())
}

#[cycle(occurring)]
#[tactic(auto, using(crate::proofs::OccurringLemmas::list_rules, mz_tree::proofs::Views::unit_rules))]
fn put_unit(alloc: Global, node: &UnitNode, out: &mut NameList) -> Result<(), AllocError>
    ensures { OnOk result (out.new ≡ out.old ++ in_unit (unit_of node.now)) }
{
    match node {
        UnitNode::Not(_, a) => put_unit(alloc, a, out),
        UnitNode::Contradiction(_) => Ok(()),
        UnitNode::Thesis(_) => Ok(()),
        UnitNode::Quantified(a) => put_quantified(alloc, a, out),
        UnitNode::Group(_, a, _) => put_formula(alloc, a, out),
        UnitNode::Private(_, _, _) => Ok(()),
        UnitNode::PrivateWith(_, _, a, _) => put_terms(alloc, a, out),
        UnitNode::Predicate(_) => Ok(()),
        UnitNode::PredicateRight(_, a) => put_terms(alloc, a, out),
        UnitNode::PredicateLeft(a, _) => put_terms(alloc, a, out),
        UnitNode::PredicateBoth(a, _, b) => {
            put_terms(alloc, a, out)?;
            put_terms(alloc, b, out)
        }
        UnitNode::IsType(a, _, b) => {
            put_term(alloc, a, out)?;
            put_type(alloc, b, out)
        }
        UnitNode::IsAdjectives(a, _, b, c) => {
            put_term(alloc, a, out)?;
            put_adjective(alloc, b, out)?;
            put_adjectives(alloc, c, out)
        }
    }
}

#[cycle(occurring)]
#[tactic(auto, using(crate::proofs::OccurringLemmas::list_rules, mz_tree::proofs::Views::quantified_rules))]
fn put_quantified(
    alloc: Global,
    node: &QuantifiedNode,
    out: &mut NameList,
) -> Result<(), AllocError>
    ensures { OnOk result (out.new ≡ out.old ++ in_quantified (quantified_of node.now)) }
{
    match node {
        QuantifiedNode::For(_, a, _, f) => {
            put_declarations(alloc, a, out)?;
            let mut inner = NameList::new(alloc);
            put_formula(alloc, f, &mut inner)?;
            push_but_declared(alloc, a, inner, out)
        }
        QuantifiedNode::ForSuch(_, a, _, f, _, g) => {
            put_declarations(alloc, a, out)?;
            let mut inner = NameList::new(alloc);
            put_formula(alloc, f, &mut inner)?;
            put_formula(alloc, g, &mut inner)?;
            push_but_declared(alloc, a, inner, out)
        }
        QuantifiedNode::ForFurther(_, a, q) => {
            put_declarations(alloc, a, out)?;
            let mut inner = NameList::new(alloc);
            put_quantified(alloc, q, &mut inner)?;
            push_but_declared(alloc, a, inner, out)
        }
        QuantifiedNode::ForSuchFurther(_, a, _, f, q) => {
            put_declarations(alloc, a, out)?;
            let mut inner = NameList::new(alloc);
            put_formula(alloc, f, &mut inner)?;
            put_quantified(alloc, q, &mut inner)?;
            push_but_declared(alloc, a, inner, out)
        }
        QuantifiedNode::Exists(_, a, _, f) => {
            put_declarations(alloc, a, out)?;
            let mut inner = NameList::new(alloc);
            put_formula(alloc, f, &mut inner)?;
            push_but_declared(alloc, a, inner, out)
        }
    }
}
