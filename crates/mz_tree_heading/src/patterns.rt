//! Patterns and their loci.
use mz_base::place::Place;
use mz_tree::lists::Separated;
use mz_tree::word::Word;

/// An identifier.
pub struct IdentifierTree {
    pub name: Word,
}

impl Drop for IdentifierTree {
    fn drop(self) {
        let IdentifierTree { name: _name } = self;
    }
}

/// Loci beside a symbol.
pub enum LociTree {
    One(Word),
    Several {
        left: Place,
        identifiers: Separated<IdentifierTree>,
        right: Place,
    },
}

impl Drop for LociTree {
    fn drop(self) {
        match self {
            LociTree::One(_a) => (),
            LociTree::Several {
                left: _left,
                identifiers: _identifiers,
                right: _right,
            } => (),
        }
    }
}

/// The loci of a mode.
pub struct ModeLociTree {
    pub of: Place,
    pub identifiers: Separated<IdentifierTree>,
}

impl Drop for ModeLociTree {
    fn drop(self) {
        let ModeLociTree {
            of: _of,
            identifiers: _identifiers,
        } = self;
    }
}

/// A pattern of a functor.
pub enum FunctorPatternTree {
    Symbol(SymbolPatternTree),
    Brackets {
        left: Word,
        identifiers: Separated<IdentifierTree>,
        right: Word,
    },
    Braces {
        left: Place,
        identifiers: Separated<IdentifierTree>,
        right: Place,
    },
    Squares {
        left: Place,
        identifiers: Separated<IdentifierTree>,
        right: Place,
    },
}

impl Drop for FunctorPatternTree {
    fn drop(self) {
        match self {
            FunctorPatternTree::Symbol(_a) => (),
            FunctorPatternTree::Brackets {
                left: _left,
                identifiers: _identifiers,
                right: _right,
            } => (),
            FunctorPatternTree::Braces {
                left: _left,
                identifiers: _identifiers,
                right: _right,
            } => (),
            FunctorPatternTree::Squares {
                left: _left,
                identifiers: _identifiers,
                right: _right,
            } => (),
        }
    }
}

/// A pattern of a predicate.
pub struct PredicatePatternTree {
    pub left: Option<Separated<IdentifierTree>>,
    pub symbol: Word,
    pub right: Option<Separated<IdentifierTree>>,
}

impl Drop for PredicatePatternTree {
    fn drop(self) {
        let PredicatePatternTree {
            left: _left,
            symbol: _symbol,
            right: _right,
        } = self;
    }
}

/// A pattern of an attribute, behind its subject.
pub struct AttributePatternTree {
    pub subject: Word,
    pub is: Place,
    pub loci: Option<LociTree>,
    pub symbol: Word,
}

impl Drop for AttributePatternTree {
    fn drop(self) {
        let AttributePatternTree {
            subject: _subject,
            is: _is,
            loci: _loci,
            symbol: _symbol,
        } = self;
    }
}

/// A functor symbol with its loci.
pub struct SymbolPatternTree {
    pub left: Option<LociTree>,
    pub symbol: Word,
    pub priority: u8,
    pub right: Option<LociTree>,
}

impl Drop for SymbolPatternTree {
    fn drop(self) {
        let SymbolPatternTree {
            left: _left,
            symbol: _symbol,
            priority: _priority,
            right: _right,
        } = self;
    }
}

/// A pattern of a mode.
pub struct ModePatternTree {
    pub symbol: Word,
    pub loci: Option<ModeLociTree>,
}

impl Drop for ModePatternTree {
    fn drop(self) {
        let ModePatternTree {
            symbol: _symbol,
            loci: _loci,
        } = self;
    }
}

/// A pattern of a notation.
pub enum PatternTree {
    Functor(FunctorPatternTree),
    Predicate(PredicatePatternTree),
    Attribute(AttributePatternTree),
    Mode(ModePatternTree),
}

impl Drop for PatternTree {
    fn drop(self) {
        match self {
            PatternTree::Functor(_a) => (),
            PatternTree::Predicate(_a) => (),
            PatternTree::Attribute(_a) => (),
            PatternTree::Mode(_a) => (),
        }
    }
}
