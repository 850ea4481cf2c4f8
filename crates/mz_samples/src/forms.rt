//! Terms and formulas, read from their texts: `bI`, `cI`, `(NAME.LN T U)`, `true`, `(= T U)`, `(not F)`, `(and F G)`,
//! `(all F)`, and beside these `(or F G)` and `(implies F G)`.
use crate::fault::SampleFault;
use crate::pieces::read;
use crate::reader::{Reader, last_formula, last_term};
use mz_logic::formula::Formula;
use mz_logic::formulas::Formulas;
use mz_logic::term::{Term, Terms};
use std::alloc::Global;

/// The terms of a text, with blanks between them.
pub fn terms(alloc: Global, text: &str) -> Result<Terms, SampleFault> {
    let mut reader = Reader::new(alloc);
    read(&mut reader, alloc, text)?;
    if reader.formulas.len() == 0 {
        Ok(reader.terms)
    } else {
        Err(SampleFault::Text)
    }
}

/// The formulas of a text, with blanks between them, and commas or none.
pub fn formulas(alloc: Global, text: &str) -> Result<Formulas, SampleFault> {
    let mut reader = Reader::new(alloc);
    read(&mut reader, alloc, text)?;
    if reader.terms.len() == 0 {
        Ok(reader.formulas)
    } else {
        Err(SampleFault::Text)
    }
}

/// The term of a text.
pub fn term(alloc: Global, text: &str) -> Result<Term, SampleFault> {
    let mut terms = terms(alloc, text)?;
    if terms.len() == 1 {
        last_term(&mut terms)
    } else {
        Err(SampleFault::Text)
    }
}

/// The formula of a text.
pub fn formula(alloc: Global, text: &str) -> Result<Formula, SampleFault> {
    let mut formulas = formulas(alloc, text)?;
    if formulas.len() == 1 {
        last_formula(&mut formulas)
    } else {
        Err(SampleFault::Text)
    }
}
