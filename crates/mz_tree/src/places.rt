//! The places of the first tokens of expressions.
ghost use Rattle.std.specs.Prelude.{◌≡◌, ◌++◌, Some, Option, map};
ghost use Rattle.mz_tree.specs.Places.{first_place, place_or};
ghost use Rattle.mz_tree.specs.Spell.{spell_term, spell_piece, spell_prefix_list, spell_prefix, spell_base, spell_terms, spell_adjective, spell_adjective_list, spell_type, spell_declared, spell_formula, spell_disjunction, spell_conjunction, spell_unit, spell_quantified, spell_adjectives, spell_declarations};
ghost use Rattle.mz_tree.specs.Trees.{adjectives_of, prefixs_of};
ghost use Rattle.mz_tree.specs.Views.{term_of, piece_of, operand_of, prefix_of, base_of, terms_of, adjective_of, type_of, declared_of, formula_of, disjunction_of, conjunction_of, unit_of, quantified_of};

use crate::expressions::{
    AdjectivesTree, DeclarationsTree, FormulaTree, TermTree, TermsTree, TypeTree,
};
use crate::nodes::{
    AdjectiveNode, BaseNode, ConjunctionNode, DeclaredNode, DisjunctionNode, FormulaNode,
    OperandNode, PieceNode, PrefixNode, QuantifiedNode, TermNode, TermsNode, TypeNode, UnitNode,
};
use mz_base::place::Place;

/// The first place, if there is one, and else the second.
pub fn place_or(first: Option<Place>, second: Place) -> Place
    ensures { place_or first (Some second) ≡ Some result }
{
    match first {
        Some(place) => place,
        None => second,
    }
}

impl TermNode {
    /// The place of its first token.
    #[tactic(auto, using(crate::proofs::PlaceLemmas::place_rules))]
    pub fn first_place(&self) -> Place
        ensures { first_place (spell_term (term_of self.now)) ≡ Some result }
    {
        self.first.first_place()
    }
}

impl PieceNode {
    /// The place of its first token.
    #[tactic(auto, using(crate::proofs::PlaceLemmas::place_rules, crate::proofs::Views::piece_rules))]
    pub fn first_place(&self) -> Place
        ensures { first_place (spell_piece (piece_of self.now)) ≡ Some result }
    {
        match self {
            PieceNode::Functor(a, _) => a.place,
            PieceNode::Operand(a) => a.first_place(),
        }
    }
}

impl OperandNode {
    /// The place of its first token.
    #[tactic(auto, using(crate::proofs::PlaceLemmas::place_rules))]
    pub fn first_place(&self) -> Place
        ensures { first_place (spell_prefix_list (operand_of self.now).prefixes ++ spell_base (operand_of self.now).base) ≡ Some result }
    {
        let base = self.base.first_place();
        first_place_of_prefixes(&self.prefixes, base)
    }
}

/// The place of the first prefix, if there is one, and else the second place.
#[tactic(auto, using(crate::proofs::PlaceLemmas::place_rules))]
fn first_place_of_prefixes(prefixes: &[PrefixNode], second: Place) -> Place
    ensures { place_or (first_place (spell_prefix_list (prefixs_of (map prefix_of prefixes.now)))) (Some second) ≡ Some result }
{
    match prefixes {
        [] => second,
        [prefix, ..] => prefix.first_place(),
    }
}

impl PrefixNode {
    /// The place of its first token.
    #[tactic(auto, using(crate::proofs::PlaceLemmas::place_rules, crate::proofs::Views::prefix_rules))]
    pub fn first_place(&self) -> Place
        ensures { first_place (spell_prefix (prefix_of self.now)) ≡ Some result }
    {
        match self {
            PrefixNode::Selector(a, _, _) => *a,
            PrefixNode::ChoiceOf(a, _, _, _, _) => *a,
            PrefixNode::ChoiceOver(a, _, _, _, _) => *a,
        }
    }
}

impl BaseNode {
    /// The place of its first token.
    #[tactic(auto, using(crate::proofs::PlaceLemmas::place_rules, crate::proofs::Views::base_rules))]
    pub fn first_place(&self) -> Place
        ensures { first_place (spell_base (base_of self.now)) ≡ Some result }
    {
        match self {
            BaseNode::Identifier(a) => a.place,
            BaseNode::Subject(a) => *a,
            BaseNode::Argument(a, _) => *a,
            BaseNode::Group(a, _, _) => *a,
            BaseNode::Call(a, _, _) => a.place,
            BaseNode::CallWith(a, _, _, _) => a.place,
            BaseNode::Selector(a, _) => *a,
            BaseNode::Aggregate(a, _, _, _) => a.place,
            BaseNode::Brackets(a, _, _) => a.place,
            BaseNode::Braces(a, _, _) => *a,
            BaseNode::Squares(a, _, _) => *a,
            BaseNode::SetOf(a, _, _, _, _, _, _, _, _) => *a,
            BaseNode::Choice(a, _, _) => *a,
            BaseNode::ChoiceStructure(a, _, _) => *a,
        }
    }
}

/// The place of the first token of terms.
#[tactic(auto, using(crate::proofs::PlaceLemmas::place_rules))]
pub fn first_place_of_terms(terms: &TermsNode) -> Place
    ensures { first_place (spell_terms (terms_of terms.now)) ≡ Some result }
{
    terms.first.first_place()
}

impl AdjectiveNode {
    /// The place of its first token.
    #[tactic(auto, using(crate::proofs::PlaceLemmas::place_rules, crate::proofs::Views::adjective_rules))]
    pub fn first_place(&self) -> Place
        ensures { first_place (spell_adjective (adjective_of self.now)) ≡ Some result }
    {
        match self {
            AdjectiveNode::Plain(a, b) => place_or(*a, b.place),
            AdjectiveNode::WithIdentifier(a, b, _) => place_or(*a, b.place),
            AdjectiveNode::WithTerms(a, b, _, _, _) => place_or(*a, *b),
        }
    }
}

/// The place of the first adjective, if there is one, and else the second place.
#[tactic(auto, using(crate::proofs::PlaceLemmas::place_rules))]
fn first_place_of_adjectives(adjectives: &[AdjectiveNode], second: Place) -> Place
    ensures { place_or (first_place (spell_adjective_list (adjectives_of (map adjective_of adjectives.now)))) (Some second) ≡ Some result }
{
    match adjectives {
        [] => second,
        [adjective, ..] => adjective.first_place(),
    }
}

impl TypeNode {
    /// The place of its first token.
    #[tactic(auto, using(crate::proofs::PlaceLemmas::place_rules, crate::proofs::Views::type_rules))]
    pub fn first_place(&self) -> Place
        ensures { first_place (spell_type (type_of self.now)) ≡ Some result }
    {
        match self {
            TypeNode::Mode(a, b) => first_place_of_adjectives(a, b.place),
            TypeNode::ModeOf(a, b, _, _) => first_place_of_adjectives(a, b.place),
            TypeNode::Structure(a, b) => first_place_of_adjectives(a, b.place),
            TypeNode::StructureOver(a, b, _, _) => first_place_of_adjectives(a, b.place),
        }
    }
}

impl DeclaredNode {
    /// The place of its first token.
    #[tactic(auto, using(crate::proofs::PlaceLemmas::place_rules, crate::proofs::Views::declared_rules))]
    pub fn first_place(&self) -> Place
        ensures { first_place (spell_declared (declared_of self.now)) ≡ Some result }
    {
        match self {
            DeclaredNode::Plain(a) => a.place,
            DeclaredNode::Typed(a, _, _) => a.place,
        }
    }
}

impl FormulaNode {
    /// The place of its first token.
    #[tactic(auto, using(crate::proofs::PlaceLemmas::place_rules, crate::proofs::Views::formula_rules))]
    pub fn first_place(&self) -> Place
        ensures { first_place (spell_formula (formula_of self.now)) ≡ Some result }
    {
        match self {
            FormulaNode::Plain(a) => first_place_of_disjunction(a),
            FormulaNode::Implies(a, _, _) => first_place_of_disjunction(a),
            FormulaNode::Iff(a, _, _) => first_place_of_disjunction(a),
        }
    }
}

/// The place of the first token of a disjunction.
#[tactic(auto, using(crate::proofs::PlaceLemmas::place_rules))]
pub fn first_place_of_disjunction(disjunction: &DisjunctionNode) -> Place
    ensures { first_place (spell_disjunction (disjunction_of disjunction.now)) ≡ Some result }
{
    disjunction.first.first_place()
}

impl ConjunctionNode {
    /// The place of its first token.
    #[tactic(auto, using(crate::proofs::PlaceLemmas::place_rules))]
    pub fn first_place(&self) -> Place
        ensures { first_place (spell_conjunction (conjunction_of self.now)) ≡ Some result }
    {
        self.first.first_place()
    }
}

impl UnitNode {
    /// The place of its first token.
    #[tactic(auto, using(crate::proofs::PlaceLemmas::place_rules, crate::proofs::Views::unit_rules))]
    pub fn first_place(&self) -> Place
        ensures { first_place (spell_unit (unit_of self.now)) ≡ Some result }
    {
        match self {
            UnitNode::Not(a, _) => *a,
            UnitNode::Contradiction(a) => *a,
            UnitNode::Thesis(a) => *a,
            UnitNode::Quantified(a) => a.first_place(),
            UnitNode::Group(a, _, _) => *a,
            UnitNode::Private(a, _, _) => a.place,
            UnitNode::PrivateWith(a, _, _, _) => a.place,
            UnitNode::Predicate(a) => a.place,
            UnitNode::PredicateRight(a, _) => a.place,
            UnitNode::PredicateLeft(a, _) => first_place_of_terms(a),
            UnitNode::PredicateBoth(a, _, _) => first_place_of_terms(a),
            UnitNode::IsType(a, _, _) => a.first_place(),
            UnitNode::IsAdjectives(a, _, _, _) => a.first_place(),
        }
    }
}

impl QuantifiedNode {
    /// The place of its first token.
    #[tactic(auto, using(crate::proofs::PlaceLemmas::place_rules, crate::proofs::Views::quantified_rules))]
    pub fn first_place(&self) -> Place
        ensures { first_place (spell_quantified (quantified_of self.now)) ≡ Some result }
    {
        match self {
            QuantifiedNode::For(a, _, _, _) => *a,
            QuantifiedNode::ForSuch(a, _, _, _, _, _) => *a,
            QuantifiedNode::ForFurther(a, _, _) => *a,
            QuantifiedNode::ForSuchFurther(a, _, _, _, _) => *a,
            QuantifiedNode::Exists(a, _, _, _) => *a,
        }
    }
}

impl TermTree {
    /// The place of its first token.
    pub fn first_place(&self) -> Place
        ensures { first_place (spell_term self.now) ≡ Some result }
    {
        self.node.first_place()
    }
}

impl TermsTree {
    /// The place of its first token.
    pub fn first_place(&self) -> Place
        ensures { first_place (spell_terms self.now) ≡ Some result }
    {
        first_place_of_terms(&self.node)
    }
}

impl TypeTree {
    /// The place of its first token.
    pub fn first_place(&self) -> Place
        ensures { first_place (spell_type self.now) ≡ Some result }
    {
        self.node.first_place()
    }
}

impl AdjectivesTree {
    /// The place of its first token.
    #[tactic(auto, using(crate::proofs::PlaceLemmas::place_rules))]
    pub fn first_place(&self) -> Place
        ensures { first_place (spell_adjectives self.now) ≡ Some result }
    {
        self.first.first_place()
    }
}

impl DeclarationsTree {
    /// The place of its first token.
    #[tactic(auto, using(crate::proofs::PlaceLemmas::place_rules))]
    pub fn first_place(&self) -> Place
        ensures { first_place (spell_declarations self.now) ≡ Some result }
    {
        self.node.first.first_place()
    }
}

impl FormulaTree {
    /// The place of its first token.
    pub fn first_place(&self) -> Place
        ensures { first_place (spell_formula self.now) ≡ Some result }
    {
        self.node.first_place()
    }
}
