//! Headings of definitions.
use crate::meaning::MeaningTree;
use crate::patterns::{
    AttributePatternTree, FunctorPatternTree, ModePatternTree, PredicatePatternTree,
};
use crate::structure::StructureTree;
use mz_base::place::Place;
use mz_tree::expressions::TypeTree;

/// The type of a result.
pub struct ResultTree {
    pub arrow: Place,
    pub ty: TypeTree,
}

impl Drop for ResultTree {
    fn drop(self) {
        let ResultTree {
            arrow: _arrow,
            ty: _ty,
        } = self;
    }
}

/// A heading that defines a functor. What it says of it may be left out only in a redefinition.
pub struct FunctorHeadingTree<M> {
    pub func: Place,
    pub pattern: FunctorPatternTree,
    pub result: Option<ResultTree>,
    pub meaning: M,
    pub semicolon: Place,
}

impl<M: Drop> Drop for FunctorHeadingTree<M> {
    fn drop(self) {
        let FunctorHeadingTree {
            func: _func,
            pattern: _pattern,
            result: _result,
            meaning: _meaning,
            semicolon: _semicolon,
        } = self;
    }
}

/// A heading that defines a predicate. What it says of it may be left out only in a redefinition.
pub struct PredicateHeadingTree<M> {
    pub pred: Place,
    pub pattern: PredicatePatternTree,
    pub meaning: M,
    pub semicolon: Place,
}

impl<M: Drop> Drop for PredicateHeadingTree<M> {
    fn drop(self) {
        let PredicateHeadingTree {
            pred: _pred,
            pattern: _pattern,
            meaning: _meaning,
            semicolon: _semicolon,
        } = self;
    }
}

/// A heading that defines an attribute. What it says of it may be left out only in a redefinition.
pub struct AttributeHeadingTree<M> {
    pub attr: Place,
    pub pattern: AttributePatternTree,
    pub meaning: M,
    pub semicolon: Place,
}

impl<M: Drop> Drop for AttributeHeadingTree<M> {
    fn drop(self) {
        let AttributeHeadingTree {
            attr: _attr,
            pattern: _pattern,
            meaning: _meaning,
            semicolon: _semicolon,
        } = self;
    }
}

/// A heading that defines a mode. What it says of it may be left out only in a redefinition.
pub struct ModeHeadingTree<M> {
    pub mode: Place,
    pub pattern: ModePatternTree,
    pub result: Option<ResultTree>,
    pub meaning: M,
    pub semicolon: Place,
}

impl<M: Drop> Drop for ModeHeadingTree<M> {
    fn drop(self) {
        let ModeHeadingTree {
            mode: _mode,
            pattern: _pattern,
            result: _result,
            meaning: _meaning,
            semicolon: _semicolon,
        } = self;
    }
}

/// A heading that makes a mode an abbreviation of a type.
pub struct AbbreviationTree {
    pub mode: Place,
    pub pattern: ModePatternTree,
    pub is: Place,
    pub ty: TypeTree,
    pub semicolon: Place,
}

impl Drop for AbbreviationTree {
    fn drop(self) {
        let AbbreviationTree {
            mode: _mode,
            pattern: _pattern,
            is: _is,
            ty: _ty,
            semicolon: _semicolon,
        } = self;
    }
}

/// A heading of a definition.
pub enum HeadingTree {
    Functor(FunctorHeadingTree<MeaningTree>),
    Predicate(PredicateHeadingTree<MeaningTree>),
    Attribute(AttributeHeadingTree<MeaningTree>),
    Mode(ModeHeadingTree<MeaningTree>),
    Abbreviation(AbbreviationTree),
    Structure(StructureTree),
    RedefinedFunctor {
        redefine: Place,
        heading: FunctorHeadingTree<Option<MeaningTree>>,
    },
    RedefinedPredicate {
        redefine: Place,
        heading: PredicateHeadingTree<Option<MeaningTree>>,
    },
    RedefinedAttribute {
        redefine: Place,
        heading: AttributeHeadingTree<Option<MeaningTree>>,
    },
    RedefinedMode {
        redefine: Place,
        heading: ModeHeadingTree<Option<MeaningTree>>,
    },
}

impl Drop for HeadingTree {
    fn drop(self) {
        match self {
            HeadingTree::Functor(_a) => (),
            HeadingTree::Predicate(_a) => (),
            HeadingTree::Attribute(_a) => (),
            HeadingTree::Mode(_a) => (),
            HeadingTree::Abbreviation(_a) => (),
            HeadingTree::Structure(_a) => (),
            HeadingTree::RedefinedFunctor {
                redefine: _redefine,
                heading: _heading,
            } => (),
            HeadingTree::RedefinedPredicate {
                redefine: _redefine,
                heading: _heading,
            } => (),
            HeadingTree::RedefinedAttribute {
                redefine: _redefine,
                heading: _heading,
            } => (),
            HeadingTree::RedefinedMode {
                redefine: _redefine,
                heading: _heading,
            } => (),
        }
    }
}
