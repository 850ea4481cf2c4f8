//! The texts of literals, made of those of formulas.
use mz_logic::literal::Literal;
use mz_logic::texts::formula_text;
use std::alloc::{AllocError, Global};

/// The text of the literal's formula.
pub fn literal_text(alloc: Global, l: &Literal) -> Result<Vec<u8>, AllocError> {
    let f = l.formula(alloc)?;
    formula_text(alloc, &f)
}
