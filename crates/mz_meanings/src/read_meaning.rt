//! What the headings of functors and modes are read to.
use mz_core::formula_definiens::FormulaDefiniens;
use mz_core::soft_type::SoftType;
use mz_core::term_definiens::TermDefiniens;

/// The type of a result, and a definiens whose formulas were read with `it` of that type.
pub struct ReadMeans {
    pub ty: SoftType,
    pub definiens: FormulaDefiniens,
}

impl Drop for ReadMeans {
    fn drop(self) {
        let ReadMeans {
            ty: _ty,
            definiens: _definiens,
        } = self;
    }
}

/// The type of a result, and a definiens of terms.
pub struct ReadEquals {
    pub ty: SoftType,
    pub definiens: TermDefiniens,
}

impl Drop for ReadEquals {
    fn drop(self) {
        let ReadEquals {
            ty: _ty,
            definiens: _definiens,
        } = self;
    }
}
