//! Statements that introduce names: `consider`, `reconsider`, `set`, `deffunc` and `defpred`.
use crate::propositions::SuchTree;
use crate::references::SimpleTree;
use mz_base::place::Place;
use mz_tree::expressions::{DeclarationsTree, FormulaTree, TermTree, TypeTree};
use mz_tree::lists::Separated;
use mz_tree::word::Word;

/// A name for a term.
pub struct NamedTermTree {
    pub name: Word,
    pub equals: Place,
    pub term: TermTree,
}

impl Drop for NamedTermTree {
    fn drop(self) {
        let NamedTermTree {
            name: _name,
            equals: _equals,
            term: _term,
        } = self;
    }
}

/// What gets another type: a variable, or a name for a term.
pub enum RetypedTree {
    Itself(Word),
    Named(NamedTermTree),
}

impl Drop for RetypedTree {
    fn drop(self) {
        match self {
            RetypedTree::Itself(_a) => (),
            RetypedTree::Named(_a) => (),
        }
    }
}

/// `consider`: names for what there is.
pub struct ConsiderTree {
    pub then: Option<Place>,
    pub consider: Place,
    pub declarations: DeclarationsTree,
    pub such: SuchTree,
    pub simple: SimpleTree,
    pub semicolon: Place,
}

impl Drop for ConsiderTree {
    fn drop(self) {
        let ConsiderTree {
            then: _then,
            consider: _consider,
            declarations: _declarations,
            such: _such,
            simple: _simple,
            semicolon: _semicolon,
        } = self;
    }
}

/// `reconsider`: another type for terms.
pub struct ReconsiderTree {
    pub then: Option<Place>,
    pub reconsider: Place,
    pub retyped: Separated<RetypedTree>,
    pub as_: Place,
    pub ty: TypeTree,
    pub simple: SimpleTree,
    pub semicolon: Place,
}

impl Drop for ReconsiderTree {
    fn drop(self) {
        let ReconsiderTree {
            then: _then,
            reconsider: _reconsider,
            retyped: _retyped,
            as_: _as,
            ty: _ty,
            simple: _simple,
            semicolon: _semicolon,
        } = self;
    }
}

/// `set`: names for terms.
pub struct SetTree {
    pub set: Place,
    pub named: Separated<NamedTermTree>,
    pub semicolon: Place,
}

impl Drop for SetTree {
    fn drop(self) {
        let SetTree {
            set: _set,
            named: _named,
            semicolon: _semicolon,
        } = self;
    }
}

/// `deffunc`: a private functor.
pub struct DeffuncTree {
    pub deffunc: Place,
    pub name: Word,
    pub left: Place,
    pub types: Option<Separated<TypeTree>>,
    pub right: Place,
    pub equals: Place,
    pub term: TermTree,
    pub semicolon: Place,
}

impl Drop for DeffuncTree {
    fn drop(self) {
        let DeffuncTree {
            deffunc: _deffunc,
            name: _name,
            left: _left,
            types: _types,
            right: _right,
            equals: _equals,
            term: _term,
            semicolon: _semicolon,
        } = self;
    }
}

/// `defpred`: a private predicate.
pub struct DefpredTree {
    pub defpred: Place,
    pub name: Word,
    pub left: Place,
    pub types: Option<Separated<TypeTree>>,
    pub right: Place,
    pub means: Place,
    pub formula: FormulaTree,
    pub semicolon: Place,
}

impl Drop for DefpredTree {
    fn drop(self) {
        let DefpredTree {
            defpred: _defpred,
            name: _name,
            left: _left,
            types: _types,
            right: _right,
            means: _means,
            formula: _formula,
            semicolon: _semicolon,
        } = self;
    }
}

/// A statement that names something.
pub enum IntroductionTree {
    Consider(ConsiderTree),
    Reconsider(ReconsiderTree),
    Set(SetTree),
    Deffunc(DeffuncTree),
    Defpred(DefpredTree),
}

impl Drop for IntroductionTree {
    fn drop(self) {
        match self {
            IntroductionTree::Consider(_a) => (),
            IntroductionTree::Reconsider(_a) => (),
            IntroductionTree::Set(_a) => (),
            IntroductionTree::Deffunc(_a) => (),
            IntroductionTree::Defpred(_a) => (),
        }
    }
}
