//! Definitions. All parts stand under the loci of the pattern; after `means` of a functor
//! or a mode the definiens stands under one more binder, that of `it`.
use crate::formula_definiens::FormulaDefiniens;
use crate::pattern::Pattern;
use crate::soft_type::SoftType;
use crate::term_definiens::TermDefiniens;
use mz_logic::sym::Sym;

/// A functor or a mode that is defined by `means`: its symbol, type and definiens.
pub struct MeansDefinition {
    pub pattern: Pattern,
    pub sym: Sym,
    pub ty: SoftType,
    pub definiens: FormulaDefiniens,
}

impl Drop for MeansDefinition {
    fn drop(self) {
        let MeansDefinition {
            pattern: _pattern,
            sym: _sym,
            ty: _ty,
            definiens: _definiens,
        } = self;
    }
}

/// A functor that is defined by `equals`: its symbol, type and definiens.
pub struct EqualsDefinition {
    pub pattern: Pattern,
    pub sym: Sym,
    pub ty: SoftType,
    pub definiens: TermDefiniens,
}

impl Drop for EqualsDefinition {
    fn drop(self) {
        let EqualsDefinition {
            pattern: _pattern,
            sym: _sym,
            ty: _ty,
            definiens: _definiens,
        } = self;
    }
}

/// A predicate: its symbol, whose arguments are all loci in their order, and definiens.
pub struct AtomDefinition {
    pub pattern: Pattern,
    pub sym: Sym,
    pub definiens: FormulaDefiniens,
}

impl Drop for AtomDefinition {
    fn drop(self) {
        let AtomDefinition {
            pattern: _pattern,
            sym: _sym,
            definiens: _definiens,
        } = self;
    }
}

/// An attribute: the place of its subject among the loci, from 0, its symbol, whose arguments are the other
/// loci in their order and then the subject, and definiens. Where there is no locus at that place, the
/// arguments are all loci in their order.
pub struct AttributeDefinition {
    pub pattern: Pattern,
    pub subject: u32,
    pub sym: Sym,
    pub definiens: FormulaDefiniens,
}

impl Drop for AttributeDefinition {
    fn drop(self) {
        let AttributeDefinition {
            pattern: _pattern,
            subject: _subject,
            sym: _sym,
            definiens: _definiens,
        } = self;
    }
}
