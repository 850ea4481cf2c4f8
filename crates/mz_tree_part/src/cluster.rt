//! Clusters of registrations.
use mz_base::place::Place;
use mz_tree::expressions::{AdjectivesTree, TermTree, TypeTree};

/// The type that a cluster is registered for.
#[derive(Drop)]
pub struct ForTypeTree {
    pub for_: Place,
    pub ty: TypeTree,
}

/// A registration of a type that isn't empty.
pub struct ExistentialTree {
    pub cluster: Place,
    pub adjectives: AdjectivesTree,
    pub for_: Option<Place>,
    pub ty: TypeTree,
    pub semicolon: Place,
}

impl Drop for ExistentialTree {
    fn drop(self) {
        let ExistentialTree {
            cluster: _cluster,
            adjectives: _adjectives,
            for_: _for,
            ty: _ty,
            semicolon: _semicolon,
        } = self;
    }
}

/// A registration of adjectives that follow from others.
pub struct ConditionalTree {
    pub cluster: Place,
    pub premises: Option<AdjectivesTree>,
    pub arrow: Place,
    pub adjectives: AdjectivesTree,
    pub for_type: ForTypeTree,
    pub semicolon: Place,
}

impl Drop for ConditionalTree {
    fn drop(self) {
        let ConditionalTree {
            cluster: _cluster,
            premises: _premises,
            arrow: _arrow,
            adjectives: _adjectives,
            for_type: _for_type,
            semicolon: _semicolon,
        } = self;
    }
}

/// A registration of adjectives of a term.
pub struct FunctorialTree {
    pub cluster: Place,
    pub term: TermTree,
    pub arrow: Place,
    pub adjectives: AdjectivesTree,
    pub for_type: Option<ForTypeTree>,
    pub semicolon: Place,
}

impl Drop for FunctorialTree {
    fn drop(self) {
        let FunctorialTree {
            cluster: _cluster,
            term: _term,
            arrow: _arrow,
            adjectives: _adjectives,
            for_type: _for_type,
            semicolon: _semicolon,
        } = self;
    }
}

/// A registration by which a term is reduced to a part of it.
pub struct ReduceTree {
    pub reduce: Place,
    pub first: TermTree,
    pub to: Place,
    pub second: TermTree,
    pub semicolon: Place,
}

impl Drop for ReduceTree {
    fn drop(self) {
        let ReduceTree {
            reduce: _reduce,
            first: _first,
            to: _to,
            second: _second,
            semicolon: _semicolon,
        } = self;
    }
}

/// A registration by which two terms are identified.
pub struct IdentifyTree {
    pub identify: Place,
    pub first: TermTree,
    pub with: Place,
    pub second: TermTree,
    pub semicolon: Place,
}

impl Drop for IdentifyTree {
    fn drop(self) {
        let IdentifyTree {
            identify: _identify,
            first: _first,
            with: _with,
            second: _second,
            semicolon: _semicolon,
        } = self;
    }
}

/// A registration.
pub enum ClusterTree {
    Existential(ExistentialTree),
    Conditional(ConditionalTree),
    Functorial(FunctorialTree),
    Reduce(ReduceTree),
    Identify(IdentifyTree),
}

impl Drop for ClusterTree {
    fn drop(self) {
        match self {
            ClusterTree::Existential(_a) => (),
            ClusterTree::Conditional(_a) => (),
            ClusterTree::Functorial(_a) => (),
            ClusterTree::Reduce(_a) => (),
            ClusterTree::Identify(_a) => (),
        }
    }
}
