//! Redefinitions. All parts stand under the loci of the pattern, as in definitions. Each has what its
//! pattern reads to.
use crate::formula_definiens::FormulaDefiniens;
use crate::pattern::Pattern;
use crate::soft_type::SoftType;
use crate::term_definiens::TermDefiniens;
use mz_logic::literal::Literal;
use mz_logic::term::Term;

/// The new meaning of a functor.
pub enum FunctorMeaning {
    Means(FormulaDefiniens),
    Equals(TermDefiniens),
}

impl Drop for FunctorMeaning {
    fn drop(self) {
        match self {
            FunctorMeaning::Means(_formula_definiens) => {}
            FunctorMeaning::Equals(_term_definiens) => {}
        }
    }
}

/// A functor that is redefined: the type of its definition, the new type and the new meaning.
pub struct FunctorRedefinition {
    pub pattern: Pattern,
    pub term: Term,
    pub old: SoftType,
    pub ty: Option<SoftType>,
    pub meaning: Option<FunctorMeaning>,
}

impl Drop for FunctorRedefinition {
    fn drop(self) {
        let FunctorRedefinition {
            pattern: _pattern,
            term: _term,
            old: _old,
            ty: _ty,
            meaning: _meaning,
        } = self;
    }
}

/// A mode that is redefined: the type of its definition, the new type and the new meaning.
pub struct ModeRedefinition {
    pub pattern: Pattern,
    pub mode: SoftType,
    pub old: SoftType,
    pub ty: Option<SoftType>,
    pub meaning: Option<FormulaDefiniens>,
}

impl Drop for ModeRedefinition {
    fn drop(self) {
        let ModeRedefinition {
            pattern: _pattern,
            mode: _mode,
            old: _old,
            ty: _ty,
            meaning: _meaning,
        } = self;
    }
}

/// A predicate or an attribute that is redefined, and the new meaning.
pub struct AtomRedefinition {
    pub pattern: Pattern,
    pub literal: Literal,
    pub meaning: Option<FormulaDefiniens>,
}

impl Drop for AtomRedefinition {
    fn drop(self) {
        let AtomRedefinition {
            pattern: _pattern,
            literal: _literal,
            meaning: _meaning,
        } = self;
    }
}
