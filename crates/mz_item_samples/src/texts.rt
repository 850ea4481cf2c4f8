//! The texts of statements, radices and types, made of those of formulas and terms.
use mz_core::adjective::Adjective;
use mz_core::erasure::erase;
use mz_core::radix::Radix;
use mz_core::soft_type::SoftType;
use mz_core::statement::Statement;
use mz_logic::literal::Literal;
use mz_logic::term::Term;
use mz_logic::texts::{formula_text, push_formula, term_text};
use std::alloc::{AllocError, Global};

/// The text of the statement's formula.
pub fn statement_text(alloc: Global, s: &Statement) -> Result<Vec<u8>, AllocError> {
    let f = erase(alloc, s)?;
    formula_text(alloc, &f)
}

/// The symbol and the arguments of the radix, as the text of a term.
pub fn radix_text(alloc: Global, r: &Radix) -> Result<Vec<u8>, AllocError> {
    let args = r.args.copy(alloc)?;
    let t = Term::apply(r.sym, args);
    term_text(alloc, &t)
}

/// Puts a blank and the adjective, as a literal without its subject, behind the text.
fn push_adjective(alloc: Global, out: &mut Vec<u8>, a: &Adjective) -> Result<(), AllocError> {
    let args = a.args.copy(alloc)?;
    let l = Literal::Atom {
        positive: a.positive,
        sym: a.sym,
        args,
    };
    let f = l.formula(alloc)?;
    out.push(b' ')?;
    push_formula(alloc, out, &f)
}

/// The text of the radix, and behind it the adjectives.
pub fn type_text(alloc: Global, ty: &SoftType) -> Result<Vec<u8>, AllocError> {
    let mut out = radix_text(alloc, &ty.radix)?;
    for a in &ty.adjectives.items {
        push_adjective(alloc, &mut out, a)?;
    }
    Ok(out)
}
