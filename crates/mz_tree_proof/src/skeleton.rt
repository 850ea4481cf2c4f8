//! Steps of the skeleton: `let`, `assume`, `given`, `take`, and the beginning of a split into cases.
use crate::introduction::NamedTermTree;
use crate::propositions::{HypothesesTree, SuchTree};
use crate::references::SimpleTree;
use mz_base::place::Place;
use mz_tree::expressions::{DeclarationsTree, TermTree};
use mz_tree::lists::Separated;

/// `let`: variables for what is arbitrary.
pub struct LetTree {
    pub let_: Place,
    pub declarations: DeclarationsTree,
    pub such: Option<SuchTree>,
    pub semicolon: Place,
}

impl Drop for LetTree {
    fn drop(self) {
        let LetTree {
            let_: _let,
            declarations: _declarations,
            such: _such,
            semicolon: _semicolon,
        } = self;
    }
}

/// `assume`: hypotheses.
pub struct AssumeTree {
    pub assume: Place,
    pub hypotheses: HypothesesTree,
    pub semicolon: Place,
}

impl Drop for AssumeTree {
    fn drop(self) {
        let AssumeTree {
            assume: _assume,
            hypotheses: _hypotheses,
            semicolon: _semicolon,
        } = self;
    }
}

/// `given`: names for what is assumed to be there.
pub struct GivenTree {
    pub given: Place,
    pub declarations: DeclarationsTree,
    pub such: SuchTree,
    pub semicolon: Place,
}

impl Drop for GivenTree {
    fn drop(self) {
        let GivenTree {
            given: _given,
            declarations: _declarations,
            such: _such,
            semicolon: _semicolon,
        } = self;
    }
}

/// What is taken as an example.
pub enum TakenTree {
    Plain(TermTree),
    Named(NamedTermTree),
}

impl Drop for TakenTree {
    fn drop(self) {
        match self {
            TakenTree::Plain(_a) => (),
            TakenTree::Named(_a) => (),
        }
    }
}

/// `take`: examples.
pub struct TakeTree {
    pub take: Place,
    pub taken: Separated<TakenTree>,
    pub semicolon: Place,
}

impl Drop for TakeTree {
    fn drop(self) {
        let TakeTree {
            take: _take,
            taken: _taken,
            semicolon: _semicolon,
        } = self;
    }
}

/// A step that needs no justification.
pub enum SkeletonTree {
    Let(LetTree),
    Assume(AssumeTree),
    Given(GivenTree),
    Take(TakeTree),
}

impl Drop for SkeletonTree {
    fn drop(self) {
        match self {
            SkeletonTree::Let(_a) => (),
            SkeletonTree::Assume(_a) => (),
            SkeletonTree::Given(_a) => (),
            SkeletonTree::Take(_a) => (),
        }
    }
}

/// The beginning of a split into cases.
pub struct SplitTree {
    pub then: Option<Place>,
    pub per: Place,
    pub cases: Place,
    pub simple: SimpleTree,
    pub semicolon: Place,
}

impl Drop for SplitTree {
    fn drop(self) {
        let SplitTree {
            then: _then,
            per: _per,
            cases: _cases,
            simple: _simple,
            semicolon: _semicolon,
        } = self;
    }
}
