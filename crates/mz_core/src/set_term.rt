//! Set terms and choices. All parts stand under the loci.
use crate::soft_type::SoftType;
use crate::soft_types::SoftTypes;
use crate::statement::Statement;
use mz_logic::sym::Sym;
use mz_logic::term::Term;

/// A set term: its symbol, and the type, the term and the formula that it is made of. The term and the
/// formula stand under one more binder, that of the variable after `where`.
pub struct SetTerm {
    pub loci: SoftTypes,
    pub sym: Sym,
    pub ty: SoftType,
    pub term: Term,
    pub formula: Statement,
}

impl Drop for SetTerm {
    fn drop(self) {
        let SetTerm {
            loci: _loci,
            sym: _sym,
            ty: _ty,
            term: _term,
            formula: _formula,
        } = self;
    }
}

/// A choice `the T`: its symbol and the type.
pub struct Choice {
    pub loci: SoftTypes,
    pub sym: Sym,
    pub ty: SoftType,
}

impl Drop for Choice {
    fn drop(self) {
        let Choice {
            loci: _loci,
            sym: _sym,
            ty: _ty,
        } = self;
    }
}
