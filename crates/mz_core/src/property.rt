//! Properties. All parts stand under the loci.
use crate::soft_types::SoftTypes;
use mz_logic::literal::Literal;
use mz_logic::sym::Sym;
use mz_logic::term::Term;

/// A predicate as its pattern reads, and the indices of its two visible loci.
pub struct Relation {
    pub literal: Literal,
    pub left: u32,
    pub right: u32,
}

impl Drop for Relation {
    fn drop(self) {
        let Relation {
            literal: _literal,
            left: _left,
            right: _right,
        } = self;
    }
}

/// A functor as its pattern reads, and the indices of its two visible loci.
pub struct Operation {
    pub term: Term,
    pub left: u32,
    pub right: u32,
}

impl Drop for Operation {
    fn drop(self) {
        let Operation {
            term: _term,
            left: _left,
            right: _right,
        } = self;
    }
}

/// A functor as its pattern reads, and the index of its visible locus.
pub struct UnaryOperation {
    pub term: Term,
    pub place: u32,
}

impl Drop for UnaryOperation {
    fn drop(self) {
        let UnaryOperation {
            term: _term,
            place: _place,
        } = self;
    }
}

/// The properties. `Sethood` is that of a mode, by its symbol.
pub enum PropertyForm {
    Reflexivity(Relation),
    Irreflexivity(Relation),
    Symmetry(Relation),
    Asymmetry(Relation),
    Connectedness(Relation),
    Commutativity(Operation),
    Idempotence(Operation),
    Involutiveness(UnaryOperation),
    Projectivity(UnaryOperation),
    Sethood(Sym),
}

impl Drop for PropertyForm {
    fn drop(self) {
        match self {
            PropertyForm::Reflexivity(_relation) => {}
            PropertyForm::Irreflexivity(_relation) => {}
            PropertyForm::Symmetry(_relation) => {}
            PropertyForm::Asymmetry(_relation) => {}
            PropertyForm::Connectedness(_relation) => {}
            PropertyForm::Commutativity(_operation) => {}
            PropertyForm::Idempotence(_operation) => {}
            PropertyForm::Involutiveness(_unary_operation) => {}
            PropertyForm::Projectivity(_unary_operation) => {}
            PropertyForm::Sethood(_sym) => {}
        }
    }
}

/// A property with its loci.
pub struct Property {
    pub loci: SoftTypes,
    pub form: PropertyForm,
}

impl Drop for Property {
    fn drop(self) {
        let Property {
            loci: _loci,
            form: _form,
        } = self;
    }
}
