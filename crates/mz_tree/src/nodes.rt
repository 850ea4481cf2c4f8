//! The nodes of expressions.
//!
//! An enum of many variants always stands in a `Box`: a function that holds one itself while another call may fail takes
//! long to check.
use crate::chain::{Before, Chain, Next};
use crate::word::{Being, Comma, Word};
use mz_base::place::Place;

/// Terms with list commas between them.
pub type TermsNode = Chain<Place, TermNode>;

/// Declared identifiers with commas between them.
pub type DeclarationsNode = Chain<Comma, DeclaredNode>;

/// Conjunctions with `or` between them.
pub type DisjunctionNode = Chain<Place, ConjunctionNode>;

/// A term: a run of functor symbols and operands.
#[cycle(nodes)]
pub struct TermNode {
    pub first: PieceNode,
    pub more: Vec<PieceNode>,
}

impl Drop for TermNode {
    #[cycle(drop)]
    fn drop(self) {
        let TermNode {
            first: _first,
            more: _more,
        } = self;
    }
}

/// A functor symbol or an operand of a term.
#[cycle(nodes)]
pub enum PieceNode {
    Functor(Word, u8),
    Operand(OperandNode),
}

impl Drop for PieceNode {
    #[cycle(drop)]
    fn drop(self) {
        match self {
            PieceNode::Functor(_a, _b) => (),
            PieceNode::Operand(_a) => (),
        }
    }
}

/// An operand: its prefixes, and the base behind them.
#[cycle(nodes)]
pub struct OperandNode {
    pub prefixes: Vec<PrefixNode>,
    pub base: Box<BaseNode>,
}

impl Drop for OperandNode {
    #[cycle(drop)]
    fn drop(self) {
        let OperandNode {
            prefixes: _prefixes,
            base: _base,
        } = self;
    }
}

/// What stands before the base of an operand: `the U of`, or a choice up to its last operand.
#[cycle(nodes)]
pub enum PrefixNode {
    Selector(Place, Word, Place),
    ChoiceOf(Place, Vec<AdjectiveNode>, Word, Place, Vec<Before<OperandNode>>),
    ChoiceOver(Place, Vec<AdjectiveNode>, Word, Place, Vec<Before<OperandNode>>),
}

impl Drop for PrefixNode {
    #[cycle(drop)]
    fn drop(self) {
        match self {
            PrefixNode::Selector(_a, _b, _c) => (),
            PrefixNode::ChoiceOf(_a, _b, _c, _d, _e) => (),
            PrefixNode::ChoiceOver(_a, _b, _c, _d, _e) => (),
        }
    }
}

/// An operand without its prefixes.
#[cycle(nodes)]
pub enum BaseNode {
    Identifier(Word),
    Subject(Place),
    Argument(Place, u8),
    Group(Place, TermsNode, Place),
    Call(Word, Place, Place),
    CallWith(Word, Place, TermsNode, Place),
    Selector(Place, Word),
    Aggregate(Word, Place, TermsNode, Place),
    Brackets(Word, TermsNode, Word),
    Braces(Place, TermsNode, Place),
    Squares(Place, TermsNode, Place),
    SetOf(Place, TermNode, Place, Word, Place, Box<TypeNode>, Place, Box<FormulaNode>, Place),
    Choice(Place, Vec<AdjectiveNode>, Word),
    ChoiceStructure(Place, Vec<AdjectiveNode>, Word),
}

impl Drop for BaseNode {
    #[cycle(drop)]
    fn drop(self) {
        match self {
            BaseNode::Identifier(_a) => (),
            BaseNode::Subject(_a) => (),
            BaseNode::Argument(_a, _b) => (),
            BaseNode::Group(_a, _b, _c) => (),
            BaseNode::Call(_a, _b, _c) => (),
            BaseNode::CallWith(_a, _b, _c, _d) => (),
            BaseNode::Selector(_a, _b) => (),
            BaseNode::Aggregate(_a, _b, _c, _d) => (),
            BaseNode::Brackets(_a, _b, _c) => (),
            BaseNode::Braces(_a, _b, _c) => (),
            BaseNode::Squares(_a, _b, _c) => (),
            BaseNode::SetOf(_a, _b, _c, _d, _e, _f, _g, _h, _i) => (),
            BaseNode::Choice(_a, _b, _c) => (),
            BaseNode::ChoiceStructure(_a, _b, _c) => (),
        }
    }
}

/// An adjective.
#[cycle(nodes)]
pub enum AdjectiveNode {
    Plain(Option<Place>, Word),
    WithIdentifier(Option<Place>, Word, Word),
    WithTerms(Option<Place>, Place, TermsNode, Place, Word),
}

impl Drop for AdjectiveNode {
    #[cycle(drop)]
    fn drop(self) {
        match self {
            AdjectiveNode::Plain(_a, _b) => (),
            AdjectiveNode::WithIdentifier(_a, _b, _c) => (),
            AdjectiveNode::WithTerms(_a, _b, _c, _d, _e) => (),
        }
    }
}

/// A type.
#[cycle(nodes)]
pub enum TypeNode {
    Mode(Vec<AdjectiveNode>, Word),
    ModeOf(Vec<AdjectiveNode>, Word, Place, TermsNode),
    Structure(Vec<AdjectiveNode>, Word),
    StructureOver(Vec<AdjectiveNode>, Word, Place, TermsNode),
}

impl Drop for TypeNode {
    #[cycle(drop)]
    fn drop(self) {
        match self {
            TypeNode::Mode(_a, _b) => (),
            TypeNode::ModeOf(_a, _b, _c, _d) => (),
            TypeNode::Structure(_a, _b) => (),
            TypeNode::StructureOver(_a, _b, _c, _d) => (),
        }
    }
}

/// A declared identifier, with a type where one stands behind it.
#[cycle(nodes)]
pub enum DeclaredNode {
    Plain(Word),
    Typed(Word, Being, Box<TypeNode>),
}

impl Drop for DeclaredNode {
    #[cycle(drop)]
    fn drop(self) {
        match self {
            DeclaredNode::Plain(_a) => (),
            DeclaredNode::Typed(_a, _b, _c) => (),
        }
    }
}

/// A formula.
#[cycle(nodes)]
pub enum FormulaNode {
    Plain(DisjunctionNode),
    Implies(DisjunctionNode, Place, DisjunctionNode),
    Iff(DisjunctionNode, Place, DisjunctionNode),
}

impl Drop for FormulaNode {
    #[cycle(drop)]
    fn drop(self) {
        match self {
            FormulaNode::Plain(_a) => (),
            FormulaNode::Implies(_a, _b, _c) => (),
            FormulaNode::Iff(_a, _b, _c) => (),
        }
    }
}

/// Units with `&` between them.
#[cycle(nodes)]
pub struct ConjunctionNode {
    pub first: Box<UnitNode>,
    pub more: Vec<Next<Place, Box<UnitNode>>>,
}

impl Drop for ConjunctionNode {
    #[cycle(drop)]
    fn drop(self) {
        let ConjunctionNode {
            first: _first,
            more: _more,
        } = self;
    }
}

/// A formula without chains.
#[cycle(nodes)]
pub enum UnitNode {
    Not(Place, Box<UnitNode>),
    Contradiction(Place),
    Thesis(Place),
    Quantified(Box<QuantifiedNode>),
    Group(Place, Box<FormulaNode>, Place),
    Private(Word, Place, Place),
    PrivateWith(Word, Place, TermsNode, Place),
    Predicate(Word),
    PredicateRight(Word, TermsNode),
    PredicateLeft(TermsNode, Word),
    PredicateBoth(TermsNode, Word, TermsNode),
    IsType(TermNode, Place, Box<TypeNode>),
    IsAdjectives(TermNode, Place, AdjectiveNode, Vec<AdjectiveNode>),
}

impl Drop for UnitNode {
    #[cycle(drop)]
    fn drop(self) {
        match self {
            UnitNode::Not(_a, _b) => (),
            UnitNode::Contradiction(_a) => (),
            UnitNode::Thesis(_a) => (),
            UnitNode::Quantified(_a) => (),
            UnitNode::Group(_a, _b, _c) => (),
            UnitNode::Private(_a, _b, _c) => (),
            UnitNode::PrivateWith(_a, _b, _c, _d) => (),
            UnitNode::Predicate(_a) => (),
            UnitNode::PredicateRight(_a, _b) => (),
            UnitNode::PredicateLeft(_a, _b) => (),
            UnitNode::PredicateBoth(_a, _b, _c) => (),
            UnitNode::IsType(_a, _b, _c) => (),
            UnitNode::IsAdjectives(_a, _b, _c, _d) => (),
        }
    }
}

/// A quantified formula.
#[cycle(nodes)]
pub enum QuantifiedNode {
    For(Place, DeclarationsNode, Place, Box<FormulaNode>),
    ForSuch(Place, DeclarationsNode, Place, Box<FormulaNode>, Place, Box<FormulaNode>),
    ForFurther(Place, DeclarationsNode, Box<QuantifiedNode>),
    ForSuchFurther(Place, DeclarationsNode, Place, Box<FormulaNode>, Box<QuantifiedNode>),
    Exists(Place, DeclarationsNode, Place, Box<FormulaNode>),
}

impl Drop for QuantifiedNode {
    #[cycle(drop)]
    fn drop(self) {
        match self {
            QuantifiedNode::For(_a, _b, _c, _d) => (),
            QuantifiedNode::ForSuch(_a, _b, _c, _d, _e, _f) => (),
            QuantifiedNode::ForFurther(_a, _b, _c) => (),
            QuantifiedNode::ForSuchFurther(_a, _b, _c, _d, _e) => (),
            QuantifiedNode::Exists(_a, _b, _c, _d) => (),
        }
    }
}
