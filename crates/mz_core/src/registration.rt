//! Registrations. All parts stand under the loci.
use crate::adjectives::Adjectives;
use crate::soft_type::SoftType;
use crate::soft_types::SoftTypes;
use mz_logic::term::Term;

/// Some object of the type has the adjectives.
pub struct ExistentialRegistration {
    pub loci: SoftTypes,
    pub adjectives: Adjectives,
    pub ty: SoftType,
}

impl Drop for ExistentialRegistration {
    fn drop(self) {
        let ExistentialRegistration {
            loci: _loci,
            adjectives: _adjectives,
            ty: _ty,
        } = self;
    }
}

/// Each object of the type that has the first adjectives has the others.
pub struct ConditionalRegistration {
    pub loci: SoftTypes,
    pub from: Adjectives,
    pub to: Adjectives,
    pub ty: SoftType,
}

impl Drop for ConditionalRegistration {
    fn drop(self) {
        let ConditionalRegistration {
            loci: _loci,
            from: _from,
            to: _to,
            ty: _ty,
        } = self;
    }
}

/// The term has the adjectives, where it is of the type.
pub struct FunctorialRegistration {
    pub loci: SoftTypes,
    pub term: Term,
    pub adjectives: Adjectives,
    pub ty: Option<SoftType>,
}

impl Drop for FunctorialRegistration {
    fn drop(self) {
        let FunctorialRegistration {
            loci: _loci,
            term: _term,
            adjectives: _adjectives,
            ty: _ty,
        } = self;
    }
}

/// The first term reduces to the second, or is identified with it.
pub struct EquationRegistration {
    pub loci: SoftTypes,
    pub left: Term,
    pub right: Term,
}

impl Drop for EquationRegistration {
    fn drop(self) {
        let EquationRegistration {
            loci: _loci,
            left: _left,
            right: _right,
        } = self;
    }
}
