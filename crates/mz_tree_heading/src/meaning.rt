//! Definientia, with cases or without.
use mz_base::place::Place;
use mz_tree::expressions::{FormulaTree, TermTree};
use mz_tree::lists::Separated;
use mz_tree::word::Word;

/// The label of a definiens, between colons.
pub struct DefinitionLabelTree {
    pub left: Place,
    pub name: Word,
    pub right: Place,
}

impl Drop for DefinitionLabelTree {
    fn drop(self) {
        let DefinitionLabelTree {
            left: _left,
            name: _name,
            right: _right,
        } = self;
    }
}

/// A definiens with its condition.
pub struct CaseTree<B> {
    pub body: B,
    pub if_: Place,
    pub condition: FormulaTree,
}

impl<B: Drop> Drop for CaseTree<B> {
    fn drop(self) {
        let CaseTree {
            body: _body,
            if_: _if,
            condition: _condition,
        } = self;
    }
}

/// The definiens of all other cases.
pub struct OtherwiseTree<B> {
    pub otherwise: Place,
    pub body: B,
}

impl<B: Drop> Drop for OtherwiseTree<B> {
    fn drop(self) {
        let OtherwiseTree {
            otherwise: _otherwise,
            body: _body,
        } = self;
    }
}

/// What stands behind `means` or `equals`.
pub enum CasesTree<B: Drop> {
    Plain(B),
    Cases {
        cases: Separated<CaseTree<B>>,
        otherwise: Option<OtherwiseTree<B>>,
    },
}

impl<B: Drop> Drop for CasesTree<B> {
    fn drop(self) {
        match self {
            CasesTree::Plain(_a) => (),
            CasesTree::Cases {
                cases: _cases,
                otherwise: _otherwise,
            } => (),
        }
    }
}

/// What a definition says of its symbol.
pub enum MeaningTree {
    Means {
        means: Place,
        label: Option<DefinitionLabelTree>,
        cases: CasesTree<FormulaTree>,
    },
    Equals {
        equals: Place,
        label: Option<DefinitionLabelTree>,
        cases: CasesTree<TermTree>,
    },
}

impl Drop for MeaningTree {
    fn drop(self) {
        match self {
            MeaningTree::Means {
                means: _means,
                label: _label,
                cases: _cases,
            } => (),
            MeaningTree::Equals {
                equals: _equals,
                label: _label,
                cases: _cases,
            } => (),
        }
    }
}
